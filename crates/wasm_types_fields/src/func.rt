//! Function types.

ghost use Rattle.std.specs.Prelude.{◌≡◌, Some};
ghost use Rattle.std.specs.Fmt.{DisplaysOnOk};
ghost use Rattle.wasm_types_fields.specs.Text.{types_text};

use crate::remap::remap_values;
use std::alloc::{AllocError, Global};
use std::cmp::Ordering;
use std::fmt::{self, Debug, Display};
use std::hash::{Hash, Hasher};
use std::iter::{FromIterator, IntoIterator};
use std::marker::Model;
use wasm_types_values::{PackedIndex, Result as Reading, ValType};

/// A function, by its parameters and its results (WebAssembly 3.0, structure, composite types). A contract sees the two
/// lists; they lie in one, the parameters before the results.
///
/// The order is by the parameters, and then by the results.
#[derive(Drop)]
pub struct FuncType {
    params_results: Vec<ValType>,
    len_params: usize,
}

impl Model for FuncType {
    ghost use Rattle.std.specs.Prelude.{◌≤◌, length, take, drop};
    ghost use Rattle.wasm_types_fields.specs.Signatures.{Signature};

    ghost Value = { Signature };

    ghost view = { λ f. record {
      params = take f.len_params f.params_results.items;
      results = drop f.len_params f.params_results.items;
    } };

    ghost invariant = { λ f. f.len_params ≤ length f.params_results.items };
}

impl FuncType {
    ghost use Rattle.std.specs.Prelude.{IfOk};
    ghost use Rattle.wasm_types_values.specs.Remap.{Remapped};
    ghost use Rattle.wasm_types_fields.specs.Fields.{function_tree};
    ghost use Rattle.wasm_types_fields.specs.Remap.{inner_shape, inner_indices};
    ghost use Rattle.std.specs.Iterator.{Drains, IsFinite};

    /// The function type of these parameters and results, each list up to its end.
    pub fn new<P, R>(alloc: Global, params: P, results: R) -> Result<FuncType, AllocError>
    where
        P: IntoIterator<Item = ValType>,
        R: IntoIterator<Item = ValType> + Drop,
        requires params { (s : P.IntoIter) → P.into_iter_gives params s
            → P.IntoIter.can_next s × IsFinite (P.IntoIter.remaining s) }
        requires results { (s : R.IntoIter) → R.into_iter_gives results s
            → R.IntoIter.can_next s × IsFinite (R.IntoIter.remaining s) }
        ensures params { IfOk result (λ f. (s : P.IntoIter) × P.into_iter_gives params s
            × Drains P.IntoIter.next_gives s f.params) }
        ensures results { IfOk result (λ f. (s : R.IntoIter) × R.into_iter_gives results s
            × Drains R.IntoIter.next_gives s f.results) }
    {
        let params = Vec::from_iter(alloc, params)?;
        let results = Vec::from_iter(alloc, results)?;
        FuncType::of_lists(alloc, params.as_slice(), results.as_slice())
    }

    // The function type of these lists, in a list with no room to spare.
    pub(crate) fn of_lists(
        alloc: Global,
        params: &[ValType],
        results: &[ValType],
    ) -> Result<FuncType, AllocError>
        ensures params { IfOk result (λ f. f.params ≡ params.now) }
        ensures results { IfOk result (λ f. f.results ≡ results.now) }
    {
        let len_params = params.len();
        let len = len_params.saturating_add(results.len());
        let mut params_results = Vec::with_capacity(alloc, len)?;
        params_results.extend_from_slice(params)?;
        params_results.extend_from_slice(results)?;
        Ok(FuncType {
            params_results,
            len_params,
        })
    }

    /// The types of the parameters, in order.
    pub fn params(&self) -> &[ValType]
        ensures { result.now ≡ self.now.params }
    {
        self.params_results.as_slice().split_at(self.len_params).0
    }

    /// The types of the results, in order.
    pub fn results(&self) -> &[ValType]
        ensures { result.now ≡ self.now.results }
    {
        self.params_results.as_slice().split_at(self.len_params).1
    }

    /// Replaces each index by what `f` makes of it, in order. Where `f` refuses one, so does the call: the indices before it
    /// are replaced, and it and those behind it stay.
    pub fn remap_indices<F: Fn(PackedIndex) -> Reading<PackedIndex>>(
        &mut self,
        f: &F,
    ) -> Reading<()>
        requires { F.IsAlwaysCallable f.now }
        ensures remapped { Remapped inner_shape inner_indices (F.post f.now) result (function_tree self.old)
            (function_tree self.new) }
    {
        remap_values(self.params_results.as_mut_slice(), f)
    }
}

impl Clone for FuncType {
    ghost use Rattle.std.specs.Prelude.{◌≡◌};

    ghost is_clone = { λ f g. g ≡ f };

    fn clone(&self) -> Result<FuncType, AllocError> {
        let params_results = self.params_results.clone()?;
        Ok(FuncType {
            params_results,
            len_params: self.len_params,
        })
    }
}

impl PartialEq for FuncType {
    ghost use Rattle.wasm_types_fields.specs.Signatures.{signature_eq};
    ghost use Rattle.wasm_types_fields.specs.SignatureLaws.{signature_per};

    ghost eq = { signature_eq };

    ghost laws = { signature_per };

    fn eq(&self, other: &FuncType) -> bool {
        self.params() == other.params() && self.results() == other.results()
    }
}

impl Eq for FuncType {
    ghost use Rattle.wasm_types_fields.specs.SignatureLaws.{signature_equiv};

    ghost laws = { signature_equiv };
}

impl PartialOrd for FuncType {
    ghost use Rattle.std.specs.Ordering.{as_partial_cmp};
    ghost use Rattle.wasm_types_fields.specs.Signatures.{signature_cmp};
    ghost use Rattle.wasm_types_fields.specs.SignatureLaws.{signature_po};

    ghost partial_cmp = { as_partial_cmp signature_cmp };

    ghost laws = { signature_po };

    fn partial_cmp(&self, other: &FuncType) -> Option<Ordering> {
        Some(self.cmp(other))
    }
}

impl Ord for FuncType {
    ghost use Rattle.std.proofs.Common.{refl};
    ghost use Rattle.wasm_types_fields.specs.Signatures.{signature_cmp};
    ghost use Rattle.wasm_types_fields.specs.SignatureLaws.{signature_total, signature_ties};

    ghost cmp = { signature_cmp };

    ghost total = { signature_total };

    ghost matches_partial_cmp = { λ f g. refl };

    ghost matches_eq = { signature_ties };

    fn cmp(&self, other: &FuncType) -> Ordering {
        self.params()
            .cmp(&other.params())
            .then(self.results().cmp(&other.results()))
    }
}

impl Hash for FuncType {
    ghost use Rattle.wasm_types_fields.specs.Signatures.{signature_writes};
    ghost use Rattle.wasm_types_fields.specs.SignatureLaws.{signature_alike};

    ghost hash_input = { signature_writes };

    ghost respects_eq = { signature_alike };

    fn hash<H: Hasher>(&self, state: &mut H) {
        self.params().hash(state);
        self.results().hash(state);
    }
}

impl Debug for FuncType {
    fn fmt<W: fmt::Write>(&self, f: &mut fmt::Formatter<W>) -> fmt::Result {
        f.debug_struct("FuncType")
            .field("params", &self.params())
            .field("results", &self.results())
            .finish()
    }
}

impl Display for FuncType {
    ghost use Rattle.std.specs.Prelude.{Some};
    ghost use Rattle.wasm_types_fields.specs.Text.{func_text};

    ghost output = { λ t. Some (func_text t.params t.results) };

    fn fmt<W: fmt::Write>(&self, f: &mut fmt::Formatter<W>) -> fmt::Result {
        f.write_str("(func")?;
        write_types(f, "param", self.params())?;
        write_types(f, "result", self.results())?;
        f.write_str(")")
    }
}

// The types behind a word, between parentheses; nothing where there is none.
fn write_types<W: fmt::Write>(
    f: &mut fmt::Formatter<W>,
    word: &str,
    types: &[ValType],
) -> fmt::Result
    ensures { DisplaysOnOk W.write_str_gives f.old result (Some (types_text word.now types.now)) f.new }
{
    if types.is_empty() {
        return Ok(());
    }
    write!(f, " ({word}")?;
    for ty in types {
        write!(f, " {ty}")?;
    }
    f.write_str(")")
}
