//! Reference types, in 25 bits.
ghost use Rattle.wasm_types_decoding.specs.Words.{words_text};
ghost use Rattle.std.specs.Prelude.{◌≡◌, ◌*◌};
ghost use Rattle.wasm_types_values.specs.Bits.{bit};

use crate::heap::{AbstractCode, AbstractHeapType, HeapType};
use std::cmp::Ordering;
use std::fmt::{self, Display};
use std::hash::{Hash, Hasher};
use std::marker::Model;
use wasm_types_reader::{TypeWords, Words};
use wasm_types_trees::PackedIndex;

// The bits above the 22 of an index, and that of a shared abstract type.
const EXACT: u32 = 1 << 23;

const CONCRETE: u32 = 1 << 24;

const NULLABLE: u32 = 1 << 22;

const SHARED: u32 = 1 << 20;

// The bit of a type that may be null.
const fn null_bit(nullable: bool) -> u32
    ensures { result ≡ 0x40_0000 * bit nullable }
{
    if nullable { NULLABLE } else { 0 }
}

// The bit of a shared abstract type.
const fn shared_bit(shared: bool) -> u32
    ensures { result ≡ 0x10_0000 * bit shared }
{
    if shared { SHARED } else { 0 }
}

/// A reference type (WebAssembly 3.0, structure, reference types). A contract sees whether it may be null and what it
/// refers to; the number of an index in it is below 2^20.
///
/// The order is by whether it refers by an index, whether exactly, whether it may be null, and then by the index, or
/// by whether it is shared and a number of the abstract type.
#[derive(Clone, Copy, Debug)]
pub struct RefType {
    bits: u32,
}

impl Model for RefType {
    ghost use Rattle.std.proofs.Common.{ℕ, ap};
    ghost use Rattle.wasm_types_values.specs.Reference.{Reference};
    ghost use Rattle.wasm_types_values.specs.Bits.{reference_of, bits_of, AreBits};

    ghost Value = { Reference };

    ghost view = { λ r. reference_of r.bits };

    ghost invariant = { λ r. AreBits r.bits };

    ghost inverse = { λ r. record { bits = bits_of r } };

    ghost inverse_ok = { λ r h. ap (λ (bits : ℕ). record { bits = bits }) h.same };
}

impl RefType {
    ghost use Rattle.std.specs.Prelude.{◌≡◌, ◌<◌, ◌^◌, ◌↔◌, IsSome, IfSome, IsTrue, true, false, if◌then◌else◌};
    ghost use Rattle.wasm_types_values.specs.Bits.{Fits};
    ghost use Rattle.wasm_types_values.specs.Kinds.{is_concrete, is_exact, IsOf, index_of, shared_of};
    ghost use Rattle.wasm_types_values.specs.Text.{wat_text};

    /// `(ref null func)`.
    pub const FUNCREF: Self = RefType {
        bits: NULLABLE + AbstractCode::Func as u32,
    };
    /// `(ref null extern)`.
    pub const EXTERNREF: Self = RefType {
        bits: NULLABLE + AbstractCode::Extern as u32,
    };
    /// `(ref null any)`.
    pub const ANYREF: Self = RefType {
        bits: NULLABLE + AbstractCode::Any as u32,
    };
    /// `(ref null eq)`.
    pub const EQREF: Self = RefType {
        bits: NULLABLE + AbstractCode::Eq as u32,
    };
    /// `(ref null struct)`.
    pub const STRUCTREF: Self = RefType {
        bits: NULLABLE + AbstractCode::Struct as u32,
    };
    /// `(ref null array)`.
    pub const ARRAYREF: Self = RefType {
        bits: NULLABLE + AbstractCode::Array as u32,
    };
    /// `(ref null i31)`.
    pub const I31REF: Self = RefType {
        bits: NULLABLE + AbstractCode::I31 as u32,
    };
    /// `(ref null exn)`.
    pub const EXNREF: Self = RefType {
        bits: NULLABLE + AbstractCode::Exn as u32,
    };
    /// `(ref null cont)`.
    pub const CONTREF: Self = RefType {
        bits: NULLABLE + AbstractCode::Cont as u32,
    };
    /// `(ref null none)`.
    pub const NULLREF: Self = RefType {
        bits: NULLABLE + AbstractCode::None as u32,
    };
    /// `(ref null nofunc)`.
    pub const NULLFUNCREF: Self = RefType {
        bits: NULLABLE + AbstractCode::NoFunc as u32,
    };
    /// `(ref null noextern)`.
    pub const NULLEXTERNREF: Self = RefType {
        bits: NULLABLE + AbstractCode::NoExtern as u32,
    };
    /// `(ref null noexn)`.
    pub const NULLEXNREF: Self = RefType {
        bits: NULLABLE + AbstractCode::NoExn as u32,
    };
    /// `(ref null nocont)`.
    pub const NULLCONTREF: Self = RefType {
        bits: NULLABLE + AbstractCode::NoCont as u32,
    };
    /// `(ref func)`.
    pub const FUNC: Self = RefType {
        bits: AbstractCode::Func as u32,
    };
    /// `(ref extern)`.
    pub const EXTERN: Self = RefType {
        bits: AbstractCode::Extern as u32,
    };
    /// `(ref any)`.
    pub const ANY: Self = RefType {
        bits: AbstractCode::Any as u32,
    };
    /// `(ref eq)`.
    pub const EQ: Self = RefType {
        bits: AbstractCode::Eq as u32,
    };
    /// `(ref struct)`.
    pub const STRUCT: Self = RefType {
        bits: AbstractCode::Struct as u32,
    };
    /// `(ref array)`.
    pub const ARRAY: Self = RefType {
        bits: AbstractCode::Array as u32,
    };
    /// `(ref i31)`.
    pub const I31: Self = RefType {
        bits: AbstractCode::I31 as u32,
    };
    /// `(ref exn)`.
    pub const EXN: Self = RefType {
        bits: AbstractCode::Exn as u32,
    };
    /// `(ref cont)`.
    pub const CONT: Self = RefType {
        bits: AbstractCode::Cont as u32,
    };
    /// `(ref none)`.
    pub const NONE: Self = RefType {
        bits: AbstractCode::None as u32,
    };
    /// `(ref nofunc)`.
    pub const NOFUNC: Self = RefType {
        bits: AbstractCode::NoFunc as u32,
    };
    /// `(ref noextern)`.
    pub const NOEXTERN: Self = RefType {
        bits: AbstractCode::NoExtern as u32,
    };
    /// `(ref noexn)`.
    pub const NOEXN: Self = RefType {
        bits: AbstractCode::NoExn as u32,
    };
    /// `(ref nocont)`.
    pub const NOCONT: Self = RefType {
        bits: AbstractCode::NoCont as u32,
    };

    /// The reference type that means this. There is none where the number of an index is not below 2^20.
    pub const fn new(nullable: bool, heap_type: HeapType) -> Option<Self>
        ensures fits { IsSome result ↔ Fits heap_type }
        ensures value { IfSome result (λ r. r ≡ record { nullable = nullable; heap = heap_type }) }
    {
        match heap_type {
            HeapType::Abstract { shared, ty } => Some(RefType::abstract_type(nullable, shared, ty)),
            HeapType::Concrete(index) => match index.pack() {
                Some(index) => Some(RefType::concrete(nullable, index)),
                None => None,
            },
            HeapType::Exact(index) => match index.pack() {
                Some(index) => Some(RefType::exact(nullable, index)),
                None => None,
            },
        }
    }

    // A reference to an abstract type.
    pub(crate) const fn abstract_type(nullable: bool, shared: bool, ty: AbstractHeapType) -> Self
        ensures { result ≡ record { nullable = nullable; heap = HeapType.Abstract shared ty } }
    {
        RefType {
            bits: null_bit(nullable) + shared_bit(shared) + ty.code(),
        }
    }

    /// A reference to the type at an index, or one below it.
    pub const fn concrete(nullable: bool, index: PackedIndex) -> Self
        ensures { result ≡ record { nullable = nullable; heap = HeapType.Concrete index } }
    {
        RefType {
            bits: CONCRETE + null_bit(nullable) + index.bits(),
        }
    }

    /// A reference to exactly the type at an index.
    pub const fn exact(nullable: bool, index: PackedIndex) -> Self
        ensures { result ≡ record { nullable = nullable; heap = HeapType.Exact index } }
    {
        RefType {
            bits: CONCRETE + EXACT + null_bit(nullable) + index.bits(),
        }
    }

    /// What is left of `a` where a cast to `b` fails: `a`, without null if `b` takes null (WebAssembly 3.0, validation,
    /// difference of reference types).
    pub const fn difference(a: RefType, b: RefType) -> RefType
        ensures { result ≡ (if b.nullable then record a { nullable = false } else a) }
    {
        if b.is_nullable() { a.as_non_null() } else { a }
    }

    /// Whether it refers to a type by an index, exactly or not.
    pub const fn is_concrete_type_ref(&self) -> bool
        ensures { result ≡ is_concrete self.now.heap }
    {
        CONCRETE <= self.bits
    }

    /// Whether it refers exactly to the type at an index.
    pub const fn is_exact_type_ref(&self) -> bool
        ensures { result ≡ is_exact self.now.heap }
    {
        self.bits >= CONCRETE + EXACT
    }

    /// The index that it refers by, if any.
    pub const fn type_index(&self) -> Option<PackedIndex>
        ensures { result ≡ index_of self.now.heap }
    {
        match self.heap_type() {
            HeapType::Abstract { .. } => None,
            HeapType::Concrete(index) => index.pack(),
            HeapType::Exact(index) => index.pack(),
        }
    }

    /// What it refers to. The number of an index is below 2^20.
    pub const fn heap_type(&self) -> HeapType
        ensures value { result ≡ self.now.heap }
        ensures fits { Fits result }
    {
        let bits = self.bits;
        let low = bits % NULLABLE;
        if bits < CONCRETE {
            HeapType::Abstract {
                shared: low >= SHARED,
                ty: AbstractHeapType::of_code(bits % SHARED),
            }
        } else if bits < CONCRETE + EXACT {
            HeapType::Concrete(PackedIndex::from_bits(low).unpack())
        } else {
            HeapType::Exact(PackedIndex::from_bits(low).unpack())
        }
    }

    // Whether it refers to this abstract type, shared or not.
    const fn is_of(&self, ty: AbstractHeapType) -> bool
        ensures { IsTrue result ↔ IsOf ty self.now.heap }
    {
        self.bits < CONCRETE && self.bits % SHARED == ty.code()
    }

    /// Whether it refers to `func`, shared or not.
    pub const fn is_func_ref(&self) -> bool
        ensures { IsTrue result ↔ IsOf AbstractHeapType.Func self.now.heap }
    {
        self.is_of(AbstractHeapType::Func)
    }

    /// Whether it refers to `extern`, shared or not.
    pub const fn is_extern_ref(&self) -> bool
        ensures { IsTrue result ↔ IsOf AbstractHeapType.Extern self.now.heap }
    {
        self.is_of(AbstractHeapType::Extern)
    }

    /// Whether it refers to `array`, shared or not.
    pub const fn is_array_ref(&self) -> bool
        ensures { IsTrue result ↔ IsOf AbstractHeapType.Array self.now.heap }
    {
        self.is_of(AbstractHeapType::Array)
    }

    /// Whether it refers to `struct`, shared or not.
    pub const fn is_struct_ref(&self) -> bool
        ensures { IsTrue result ↔ IsOf AbstractHeapType.Struct self.now.heap }
    {
        self.is_of(AbstractHeapType::Struct)
    }

    /// Whether it refers to `cont`, shared or not.
    pub const fn is_cont_ref(&self) -> bool
        ensures { IsTrue result ↔ IsOf AbstractHeapType.Cont self.now.heap }
    {
        self.is_of(AbstractHeapType::Cont)
    }

    /// Whether it refers to `none`, shared or not.
    pub const fn is_none_ref(&self) -> bool
        ensures { IsTrue result ↔ IsOf AbstractHeapType.None self.now.heap }
    {
        self.is_of(AbstractHeapType::None)
    }

    /// Whether it may be null.
    pub const fn is_nullable(&self) -> bool
        ensures { result ≡ self.now.nullable }
    {
        self.bits / NULLABLE % 2 == 1
    }

    /// The same that is not null.
    pub const fn as_non_null(&self) -> Self
        ensures { result ≡ record self.now { nullable = false } }
    {
        if !self.is_nullable() {
            return *self;
        }
        RefType {
            bits: self.bits - NULLABLE,
        }
    }

    /// The same that may be null.
    pub const fn nullable(&self) -> Self
        ensures { result ≡ record self.now { nullable = true } }
    {
        if self.is_nullable() {
            return *self;
        }
        RefType {
            bits: self.bits + NULLABLE,
        }
    }

    /// The shared form of a reference to an abstract type. A defined type says itself whether it is shared.
    pub const fn shared(&self) -> Option<Self>
        ensures { result ≡ shared_of self.now }
    {
        match self.heap_type() {
            HeapType::Abstract { shared: _, ty } => {
                let nullable = self.is_nullable();
                Some(RefType::abstract_type(nullable, true, ty))
            }
            HeapType::Concrete(_) => None,
            HeapType::Exact(_) => None,
        }
    }

    /// How it is written, with `$type` for an index.
    pub const fn wat(&self) -> &'static str
        ensures { result.now ≡ wat_text self.now }
    {
        self.words().text()
    }

    /// How it is written, with `$type` for an index.
    pub const fn words(&self) -> Words
        ensures { words_text result ≡ wat_text self.now }
    {
        let nullable = self.is_nullable();
        match self.heap_type() {
            HeapType::Abstract { shared, ty } => {
                if shared {
                    if nullable {
                        ty.shared_null_word()
                    } else {
                        ty.shared_word()
                    }
                } else {
                    if nullable {
                        ty.short_word()
                    } else {
                        ty.non_null_word()
                    }
                }
            }
            HeapType::Concrete(_) => if nullable {
                Words::Type(TypeWords::RefNullType)
            } else {
                Words::Type(TypeWords::RefType)
            },
            HeapType::Exact(_) => if nullable {
                Words::Type(TypeWords::RefNullExactType)
            } else {
                Words::Type(TypeWords::RefExactType)
            },
        }
    }
}

impl Display for RefType {
    ghost use Rattle.std.specs.Prelude.{Some};
    ghost use Rattle.wasm_types_values.specs.Text.{reference_text};

    ghost output = { λ r. Some (reference_text r) };

    fn fmt<W: fmt::Write>(&self, f: &mut fmt::Formatter<W>) -> fmt::Result {
        let nullable = self.is_nullable();
        match self.heap_type() {
            HeapType::Abstract { .. } => f.write_str(self.wat()),
            HeapType::Concrete(index) => {
                if nullable {
                    write!(f, "(ref null {index})")
                } else {
                    write!(f, "(ref {index})")
                }
            }
            HeapType::Exact(index) => {
                if nullable {
                    write!(f, "(ref null (exact {index}))")
                } else {
                    write!(f, "(ref (exact {index}))")
                }
            }
        }
    }
}

impl PartialEq for RefType {
    ghost use Rattle.std.proofs.Common.{rules};
    ghost use Rattle.std.specs.Cmp.Rules.{comparing};
    ghost use Rattle.wasm_types_values.specs.Kinds.{reference_eq};

    ghost eq = { reference_eq };

    ghost laws = { Prim.search (comparing, rules) depth 9 };

    fn eq(&self, other: &RefType) -> bool {
        self.bits == other.bits
    }
}

impl Eq for RefType {
    ghost use Rattle.std.proofs.Common.{rules};
    ghost use Rattle.std.specs.Cmp.Rules.{comparing};

    ghost laws = { Prim.search (comparing, rules) depth 9 };
}

impl PartialOrd for RefType {
    ghost use Rattle.std.proofs.Common.{rules};
    ghost use Rattle.std.specs.Cmp.{partial_order_from_own_ties};
    ghost use Rattle.std.specs.Cmp.Rules.{comparing};
    ghost use Rattle.std.specs.Ordering.{as_partial_cmp};
    ghost use Rattle.wasm_types_values.specs.Kinds.{reference_cmp};
    ghost use Rattle.wasm_types_values.specs.TieLaws.{reference_ties};

    ghost partial_cmp = { as_partial_cmp reference_cmp };

    ghost laws = { partial_order_from_own_ties (Prim.search (comparing, rules) depth 9) reference_ties };

    fn partial_cmp(&self, other: &RefType) -> Option<Ordering> {
        Some(self.cmp(other))
    }
}

impl Ord for RefType {
    ghost use Rattle.std.proofs.Common.{rules};
    ghost use Rattle.std.specs.Cmp.Rules.{comparing};
    ghost use Rattle.wasm_types_values.specs.Kinds.{reference_cmp};
    ghost use Rattle.wasm_types_values.specs.TieLaws.{reference_ties};

    ghost cmp = { reference_cmp };

    ghost total = { Prim.search (comparing, rules) depth 9 };

    ghost matches_partial_cmp = { Prim.search (comparing, rules) depth 9 };

    ghost matches_eq = { reference_ties };

    fn cmp(&self, other: &RefType) -> Ordering {
        self.bits.cmp(&other.bits)
    }
}

impl Hash for RefType {
    ghost use Rattle.std.proofs.Common.{rules};
    ghost use Rattle.std.specs.Cmp.Rules.{hashing};
    ghost use Rattle.std.specs.Hash as fed;
    ghost use Rattle.wasm_types_values.specs.Bits.{bits_of};

    ghost hash_input = { λ r. fed.u32 (bits_of r) };

    ghost respects_eq = { Prim.search (hashing, rules) };

    fn hash<H: Hasher>(&self, state: &mut H) {
        self.bits.hash(state);
    }
}
