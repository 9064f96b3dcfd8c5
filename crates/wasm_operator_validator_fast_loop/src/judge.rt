//! The loop.

ghost use Rattle.std.specs.Prelude.{◌≡◌, ◌<◌, ◌≤◌, ◌+◌, ◌∷◌, ℕ, List, true, length, drop, take, IfSome, None, Some, ◌⊎◌};
ghost use Rattle.wasm_types.specs.settings.Settings.{Settings};
ghost use Rattle.wasm_types.specs.trees.Trees.{TypeTree};
ghost use Rattle.wasm_operators_encoding.specs.expressions.Code.{Code};
ghost use Rattle.wasm_operators_encoding.specs.expressions.Spelling.{SpelledExpression};
ghost use Rattle.wasm_operator_validator_rules.specs.Context.{Context};
ghost use Rattle.wasm_operator_validator_rules.specs.Typed.{IsBody};
ghost use Rattle.wasm_operators_frequent.specs.Short.{Begins};
ghost use Rattle.wasm_operator_validator_fast_tables.specs.Tables.{Fits, BeginSet};
ghost use Rattle.wasm_operator_validator_fast_tables.specs.Loop.{Goes, Leads, all, outermost};

use std::alloc::Global;
use std::mem;
use wasm_operator_validator_fast_objects::arrays::array_copy;
use wasm_operator_validator_fast_objects::arrays::array_fill;
use wasm_operator_validator_fast_objects::arrays::array_get;
use wasm_operator_validator_fast_objects::arrays::array_get_s;
use wasm_operator_validator_fast_objects::arrays::array_get_u;
use wasm_operator_validator_fast_objects::arrays::array_len;
use wasm_operator_validator_fast_objects::arrays::array_new;
use wasm_operator_validator_fast_objects::arrays::array_new_data;
use wasm_operator_validator_fast_objects::arrays::array_new_default;
use wasm_operator_validator_fast_objects::arrays::array_new_fixed;
use wasm_operator_validator_fast_objects::arrays::array_set;
use wasm_operator_validator_fast_objects::atomics::atomic;
use wasm_operator_validator_fast_objects::casts::br_on_cast;
use wasm_operator_validator_fast_objects::casts::convert;
use wasm_operator_validator_fast_objects::casts::i31_get;
use wasm_operator_validator_fast_objects::casts::ref_cast;
use wasm_operator_validator_fast_objects::casts::ref_i31;
use wasm_operator_validator_fast_objects::casts::ref_test;
use wasm_operator_validator_fast_objects::exceptions::throw;
use wasm_operator_validator_fast_objects::exceptions::throw_ref;
use wasm_operator_validator_fast_objects::exceptions::try_table;
use wasm_operator_validator_fast_objects::references::br_on_non_null;
use wasm_operator_validator_fast_objects::references::br_on_null;
use wasm_operator_validator_fast_objects::references::ref_as_non_null;
use wasm_operator_validator_fast_objects::references::ref_eq;
use wasm_operator_validator_fast_objects::references::ref_func;
use wasm_operator_validator_fast_objects::references::ref_is_null;
use wasm_operator_validator_fast_objects::references::ref_null;
use wasm_operator_validator_fast_objects::references::select_typed;
use wasm_operator_validator_fast_objects::structs::near_struct_get;
use wasm_operator_validator_fast_objects::structs::struct_get;
use wasm_operator_validator_fast_objects::structs::struct_get_s;
use wasm_operator_validator_fast_objects::structs::struct_get_u;
use wasm_operator_validator_fast_objects::structs::struct_new;
use wasm_operator_validator_fast_objects::structs::struct_new_default;
use wasm_operator_validator_fast_objects::structs::struct_set;
use wasm_operator_validator_fast_objects::tables::elem_drop;
use wasm_operator_validator_fast_objects::tables::table_copy;
use wasm_operator_validator_fast_objects::tables::table_fill;
use wasm_operator_validator_fast_objects::tables::table_get;
use wasm_operator_validator_fast_objects::tables::table_grow;
use wasm_operator_validator_fast_objects::tables::table_init;
use wasm_operator_validator_fast_objects::tables::table_set;
use wasm_operator_validator_fast_objects::tables::table_size;
use wasm_operator_validator_fast_objects::vectors::vector;
use wasm_operator_validator_fast_steps::blocks::begin_if;
use wasm_operator_validator_fast_steps::blocks::begin_loop;
use wasm_operator_validator_fast_steps::blocks::block;
use wasm_operator_validator_fast_steps::blocks::end;
use wasm_operator_validator_fast_steps::blocks::finish;
use wasm_operator_validator_fast_steps::blocks::turn;
use wasm_operator_validator_fast_steps::branches::br;
use wasm_operator_validator_fast_steps::branches::br_if;
use wasm_operator_validator_fast_steps::branches::br_table;
use wasm_operator_validator_fast_steps::branches::return_all;
use wasm_operator_validator_fast_steps::calls::call;
use wasm_operator_validator_fast_steps::calls::call_indirect;
use wasm_operator_validator_fast_steps::calls::call_ref;
use wasm_operator_validator_fast_steps::calls::return_call;
use wasm_operator_validator_fast_steps::calls::return_call_indirect;
use wasm_operator_validator_fast_steps::calls::return_call_ref;
use wasm_operator_validator_fast_steps::constants::f32_const;
use wasm_operator_validator_fast_steps::constants::f64_const;
use wasm_operator_validator_fast_steps::constants::i32_const;
use wasm_operator_validator_fast_steps::constants::i64_const;
use wasm_operator_validator_fast_steps::indices::near_index_at;
use wasm_operator_validator_fast_steps::late::late_get;
use wasm_operator_validator_fast_steps::late::late_set;
use wasm_operator_validator_fast_steps::late::late_tee;
use wasm_operator_validator_fast_steps::memory::data_drop;
use wasm_operator_validator_fast_steps::memory::load;
use wasm_operator_validator_fast_steps::memory::memory_copy;
use wasm_operator_validator_fast_steps::memory::memory_fill;
use wasm_operator_validator_fast_steps::memory::memory_grow;
use wasm_operator_validator_fast_steps::memory::memory_init;
use wasm_operator_validator_fast_steps::memory::memory_size;
use wasm_operator_validator_fast_steps::memory::store;
use wasm_operator_validator_fast_steps::numbers::change;
use wasm_operator_validator_fast_steps::numbers::change_as;
use wasm_operator_validator_fast_steps::numbers::change_prefixed;
use wasm_operator_validator_fast_steps::numbers::combine_as;
use wasm_operator_validator_fast_steps::parametric::drop_top;
use wasm_operator_validator_fast_steps::parametric::nop;
use wasm_operator_validator_fast_steps::parametric::select;
use wasm_operator_validator_fast_steps::parametric::unreachable;
use wasm_operator_validator_fast_steps::shape::Class;
use wasm_operator_validator_fast_steps::shape::class_of;
use wasm_operator_validator_fast_steps::shape::saturating_of;
use wasm_operator_validator_fast_steps::variables::global_get;
use wasm_operator_validator_fast_steps::variables::global_set;
use wasm_operator_validator_fast_steps::variables::local_at;
use wasm_operator_validator_fast_steps::variables::local_get;
use wasm_operator_validator_fast_steps::variables::local_set;
use wasm_operator_validator_fast_steps::variables::local_tee;
use wasm_operator_validator_fast_tables::Open;
use wasm_operator_validator_fast_tables::Opens;
use wasm_operator_validator_fast_tables::Pile;
use wasm_operator_validator_fast_tables::Sig;
use wasm_operator_validator_fast_tables::Stack;
use wasm_operator_validator_fast_tables::Tables;
use wasm_operator_validator_state::FrameKind;
use wasm_types_decoding::short_u32_at;

/// Takes the next operator, or goes behind all bytes. Each arm ends in an offset of its own: an option that all share would be a flag that each
/// of them sets, and that is asked behind them.
#[inline(always)]
fn next(
    tables: &Tables,
    locals: &[u32],
    bytes: &[u8],
    at: usize,
    stack: &mut Stack,
    opens: &mut Opens,
) -> usize
    requires more { at + 1 < length bytes.now }
    requires locals { locals.now ≡ take tables.now.certain tables.now.locals.items }
    ensures leads { result < length bytes.now → Leads bytes.now tables.now at (all opens.old) stack.old
        result (all opens.new) stack.new }
    ensures forward { at < result }
    ensures inside { result ≤ length bytes.now }
{
    let code = bytes[at];
    match class_of(code) {
        Class::Unreachable => settled(unreachable(tables, bytes, at, stack, opens), bytes, opens),
        Class::Nop => settled(nop(tables, bytes, at, stack, opens), bytes, opens),
        Class::Block => settled(block(tables, bytes, at, stack, opens), bytes, opens),
        Class::Loop => settled(begin_loop(tables, bytes, at, stack, opens), bytes, opens),
        Class::If => settled(begin_if(tables, bytes, at, stack, opens), bytes, opens),
        Class::Else => settled(turn(tables, bytes, at, stack, opens), bytes, opens),
        Class::End => settled(end(tables, bytes, at, stack, opens), bytes, opens),
        Class::Br => settled(br(tables, bytes, at, stack, opens), bytes, opens),
        Class::BrIf => settled(br_if(tables, bytes, at, stack, opens), bytes, opens),
        Class::BrTable => settled(br_table(tables, bytes, at, stack, opens), bytes, opens),
        Class::Return => settled(return_all(tables, bytes, at, stack, opens), bytes, opens),
        Class::Call => settled(call(tables, bytes, at, stack, opens), bytes, opens),
        Class::CallIndirect => settled(
            call_indirect(tables, bytes, at, stack, opens),
            bytes,
            opens,
        ),
        Class::ReturnCall => settled(return_call(tables, bytes, at, stack, opens), bytes, opens),
        Class::ReturnCallIndirect => settled(
            return_call_indirect(tables, bytes, at, stack, opens),
            bytes,
            opens,
        ),
        Class::Drop => settled(drop_top(tables, bytes, at, stack, opens), bytes, opens),
        Class::Select => settled(select(tables, bytes, at, stack, opens), bytes, opens),
        Class::LocalGet => match local_at(tables, locals, bytes, at + 1) {
            Some(local) => settled(
                local_get(tables, local, bytes, at, stack, opens),
                bytes,
                opens,
            ),
            None => settled(away(tables, bytes, at, stack, opens), bytes, opens),
        },
        Class::LocalSet => match local_at(tables, locals, bytes, at + 1) {
            Some(local) => settled(
                local_set(tables, local, bytes, at, stack, opens),
                bytes,
                opens,
            ),
            None => settled(away(tables, bytes, at, stack, opens), bytes, opens),
        },
        Class::LocalTee => match local_at(tables, locals, bytes, at + 1) {
            Some(local) => settled(
                local_tee(tables, local, bytes, at, stack, opens),
                bytes,
                opens,
            ),
            None => settled(away(tables, bytes, at, stack, opens), bytes, opens),
        },
        Class::GlobalGet => settled(global_get(tables, bytes, at, stack, opens), bytes, opens),
        Class::GlobalSet => settled(global_set(tables, bytes, at, stack, opens), bytes, opens),
        Class::MemorySize => settled(memory_size(tables, bytes, at, stack, opens), bytes, opens),
        Class::MemoryGrow => settled(memory_grow(tables, bytes, at, stack, opens), bytes, opens),
        Class::I32Const => settled(i32_const(tables, bytes, at, stack, opens), bytes, opens),
        Class::I64Const => settled(i64_const(tables, bytes, at, stack, opens), bytes, opens),
        Class::F32Const => settled(f32_const(tables, bytes, at, stack, opens), bytes, opens),
        Class::F64Const => settled(f64_const(tables, bytes, at, stack, opens), bytes, opens),
        Class::Prefixed => settled(prefixed(tables, bytes, at, stack, opens), bytes, opens),
        Class::Load => settled(load(code, tables, bytes, at, stack, opens), bytes, opens),
        Class::Store => settled(store(code, tables, bytes, at, stack, opens), bytes, opens),
        Class::Change => settled(change(code, tables, bytes, at, stack, opens), bytes, opens),
        Class::LoadI32 => settled(load(0x28, tables, bytes, at, stack, opens), bytes, opens),
        Class::LoadI64 => settled(load(0x29, tables, bytes, at, stack, opens), bytes, opens),
        Class::LoadByte => settled(load(0x2d, tables, bytes, at, stack, opens), bytes, opens),
        Class::StoreI32 => settled(store(0x36, tables, bytes, at, stack, opens), bytes, opens),
        Class::StoreI64 => settled(store(0x37, tables, bytes, at, stack, opens), bytes, opens),
        Class::ChangeI32 => settled(
            change_as(0, 0, code, tables, bytes, at, stack, opens),
            bytes,
            opens,
        ),
        Class::Shorten => settled(
            change_as(1, 0, code, tables, bytes, at, stack, opens),
            bytes,
            opens,
        ),
        Class::Lengthen => settled(
            change_as(0, 1, code, tables, bytes, at, stack, opens),
            bytes,
            opens,
        ),
        Class::CombineI32 => settled(
            combine_as(0, 0, code, tables, bytes, at, stack, opens),
            bytes,
            opens,
        ),
        Class::CombineI64 => settled(
            combine_as(1, 1, code, tables, bytes, at, stack, opens),
            bytes,
            opens,
        ),
        Class::CombineF32 => settled(
            combine_as(2, 2, code, tables, bytes, at, stack, opens),
            bytes,
            opens,
        ),
        Class::CombineF64 => settled(
            combine_as(3, 3, code, tables, bytes, at, stack, opens),
            bytes,
            opens,
        ),
        Class::CompareI64 => settled(
            combine_as(1, 0, code, tables, bytes, at, stack, opens),
            bytes,
            opens,
        ),
        Class::CompareF32 => settled(
            combine_as(2, 0, code, tables, bytes, at, stack, opens),
            bytes,
            opens,
        ),
        Class::CompareF64 => settled(
            combine_as(3, 0, code, tables, bytes, at, stack, opens),
            bytes,
            opens,
        ),
        Class::Object => settled(near_object(tables, bytes, at, stack, opens), bytes, opens),
        Class::Other => settled(away(tables, bytes, at, stack, opens), bytes, opens),
    }
}

/// Takes an operator out of the loop: the operands go there and come back, so that no pointer leads to what the loop counts by, and it can
/// stay in registers.
#[inline(always)]
fn away(
    tables: &Tables,
    bytes: &[u8],
    at: usize,
    stack: &mut Stack,
    opens: &mut Opens,
) -> Option<usize>
    requires { at < length bytes.now }
    ensures leads { IfSome result (λ end. Leads bytes.now tables.now at (all opens.old) stack.old
        end (all opens.new) stack.new) }
    ensures forward { IfSome result (λ end. at < end) }
    ensures inside { IfSome result (λ end. end ≤ length bytes.now) }
{
    let mut own = mem::replace(stack, Stack::new(*tables.known.flat.allocator()));
    let end = referring(tables, bytes, at, &mut own, opens);
    *stack = own;
    end
}

/// Takes an operator on references, objects, exceptions, tables, segments or vectors, an atomic one, or one on locals that may have no value.
#[inline(never)]
fn referring(
    tables: &Tables,
    bytes: &[u8],
    at: usize,
    stack: &mut Stack,
    opens: &mut Opens,
) -> Option<usize>
    requires { at < length bytes.now }
    ensures leads { IfSome result (λ end. Leads bytes.now tables.now at (all opens.old) stack.old
        end (all opens.new) stack.new) }
    ensures forward { IfSome result (λ end. at < end) }
    ensures inside { IfSome result (λ end. end ≤ length bytes.now) }
{
    let code = bytes[at];
    match code {
        0x08 => throw(tables, bytes, at, stack, opens),
        0x0a => throw_ref(tables, bytes, at, stack, opens),
        0x14 => call_ref(tables, bytes, at, stack, opens),
        0x15 => return_call_ref(tables, bytes, at, stack, opens),
        0x1c => select_typed(tables, bytes, at, stack, opens),
        0x1f => try_table(tables, bytes, at, stack, opens),
        0x20 => late_get(tables, bytes, at, stack, opens),
        0x21 => late_set(tables, bytes, at, stack, opens),
        0x22 => late_tee(tables, bytes, at, stack, opens),
        0x25 => table_get(tables, bytes, at, stack, opens),
        0x26 => table_set(tables, bytes, at, stack, opens),
        0xd0 => ref_null(tables, bytes, at, stack, opens),
        0xd1 => ref_is_null(tables, bytes, at, stack, opens),
        0xd2 => ref_func(tables, bytes, at, stack, opens),
        0xd3 => ref_eq(tables, bytes, at, stack, opens),
        0xd4 => ref_as_non_null(tables, bytes, at, stack, opens),
        0xd5 => br_on_null(tables, bytes, at, stack, opens),
        0xd6 => br_on_non_null(tables, bytes, at, stack, opens),
        0xfb => object(tables, bytes, at, stack, opens),
        0xfc => bulk(tables, bytes, at, stack, opens),
        0xfd => vector(tables, bytes, at, stack, opens),
        0xfe => atomic(tables, bytes, at, stack, opens),
        _ => None,
    }
}

/// Takes an operator behind the prefix `fb`.
fn object(
    tables: &Tables,
    bytes: &[u8],
    at: usize,
    stack: &mut Stack,
    opens: &Opens,
) -> Option<usize>
    requires { Begins bytes.now at 0xfb }
    ensures leads { IfSome result (λ end. Leads bytes.now tables.now at (all opens.now) stack.old
        end (all opens.now) stack.new) }
    ensures forward { IfSome result (λ end. at < end) }
    ensures inside { IfSome result (λ end. end ≤ length bytes.now) }
{
    let Some((code, middle)) = short_u32_at(bytes, at + 1) else {
        return None;
    };
    match code {
        0x00 => struct_new(middle, tables, bytes, at, stack, opens),
        0x01 => struct_new_default(middle, tables, bytes, at, stack, opens),
        0x02 => struct_get(middle, tables, bytes, at, stack, opens),
        0x03 => struct_get_s(middle, tables, bytes, at, stack, opens),
        0x04 => struct_get_u(middle, tables, bytes, at, stack, opens),
        0x05 => struct_set(middle, tables, bytes, at, stack, opens),
        0x06 => array_new(middle, tables, bytes, at, stack, opens),
        0x07 => array_new_default(middle, tables, bytes, at, stack, opens),
        0x08 => array_new_fixed(middle, tables, bytes, at, stack, opens),
        0x09 => array_new_data(middle, tables, bytes, at, stack, opens),
        0x0b => array_get(middle, tables, bytes, at, stack, opens),
        0x0c => array_get_s(middle, tables, bytes, at, stack, opens),
        0x0d => array_get_u(middle, tables, bytes, at, stack, opens),
        0x0e => array_set(middle, tables, bytes, at, stack, opens),
        0x0f => array_len(middle, tables, bytes, at, stack, opens),
        0x10 => array_fill(middle, tables, bytes, at, stack, opens),
        0x11 => array_copy(middle, tables, bytes, at, stack, opens),
        0x14 => ref_test(false, middle, tables, bytes, at, stack, opens),
        0x15 => ref_test(true, middle, tables, bytes, at, stack, opens),
        0x16 => ref_cast(false, middle, tables, bytes, at, stack, opens),
        0x17 => ref_cast(true, middle, tables, bytes, at, stack, opens),
        0x18 => br_on_cast(false, middle, tables, bytes, at, stack, opens),
        0x19 => br_on_cast(true, middle, tables, bytes, at, stack, opens),
        0x1a => convert(false, middle, tables, bytes, at, stack, opens),
        0x1b => convert(true, middle, tables, bytes, at, stack, opens),
        0x1c => ref_i31(middle, tables, bytes, at, stack, opens),
        0x1d => i31_get(true, middle, tables, bytes, at, stack, opens),
        0x1e => i31_get(false, middle, tables, bytes, at, stack, opens),
        _ => None,
    }
}

/// Takes an operator behind the prefix `fb`: reads of structures, which are the most frequent, in the loop.
#[inline(always)]
fn near_object(
    tables: &Tables,
    bytes: &[u8],
    at: usize,
    stack: &mut Stack,
    opens: &mut Opens,
) -> Option<usize>
    requires begins { Begins bytes.now at 0xfb }
    requires more { at + 1 < length bytes.now }
    ensures leads { IfSome result (λ end. Leads bytes.now tables.now at (all opens.old) stack.old
        end (all opens.new) stack.new) }
    ensures forward { IfSome result (λ end. at < end) }
    ensures inside { IfSome result (λ end. end ≤ length bytes.now) }
{
    let Some((code, middle)) = near_index_at(bytes, at + 1) else {
        return None;
    };
    match code {
        0x02 => {
            if middle >= bytes.len() {
                return None;
            }
            near_struct_get(middle, tables, bytes, at, stack, opens)
        }
        _ => away(tables, bytes, at, stack, opens),
    }
}

/// Takes an operator behind the prefix `fc` on tables or segments.
fn bulk(tables: &Tables, bytes: &[u8], at: usize, stack: &mut Stack, opens: &Opens) -> Option<usize>
    requires { Begins bytes.now at 0xfc }
    ensures leads { IfSome result (λ end. Leads bytes.now tables.now at (all opens.now) stack.old
        end (all opens.now) stack.new) }
    ensures forward { IfSome result (λ end. at < end) }
    ensures inside { IfSome result (λ end. end ≤ length bytes.now) }
{
    let Some((code, middle)) = short_u32_at(bytes, at + 1) else {
        return None;
    };
    match code {
        0x08 => memory_init(middle, tables, bytes, at, stack, opens),
        0x09 => data_drop(middle, tables, bytes, at, stack, opens),
        0x0c => table_init(middle, tables, bytes, at, stack, opens),
        0x0d => elem_drop(middle, tables, bytes, at, stack, opens),
        0x0e => table_copy(middle, tables, bytes, at, stack, opens),
        0x0f => table_grow(middle, tables, bytes, at, stack, opens),
        0x10 => table_size(middle, tables, bytes, at, stack, opens),
        0x11 => table_fill(middle, tables, bytes, at, stack, opens),
        _ => None,
    }
}

/// Takes an operator behind the prefix `fc`: copies and fills of memory, and conversions, which are frequent, in the loop.
#[inline(always)]
fn prefixed(
    tables: &Tables,
    bytes: &[u8],
    at: usize,
    stack: &mut Stack,
    opens: &mut Opens,
) -> Option<usize>
    requires { Begins bytes.now at 0xfc }
    ensures leads { IfSome result (λ end. Leads bytes.now tables.now at (all opens.old) stack.old
        end (all opens.new) stack.new) }
    ensures forward { IfSome result (λ end. at < end) }
    ensures inside { IfSome result (λ end. end ≤ length bytes.now) }
{
    let Some((code, middle)) = short_u32_at(bytes, at + 1) else {
        return None;
    };
    match code {
        0x0a => memory_copy(middle, tables, bytes, at, stack, opens),
        0x0b => memory_fill(middle, tables, bytes, at, stack, opens),
        _ => match saturating_of(code) {
            None => away(tables, bytes, at, stack, opens),
            Some((takes, gives)) => {
                change_prefixed(code, middle, takes, gives, tables, bytes, at, stack, opens)
            }
        },
    }
}

/// The offset behind all bytes, at which no body ends. It changes the frames, so that the compiler makes it a branch, and no choice at each turn.
#[cold]
#[inline(never)]
fn behind(bytes: &[u8], opens: &mut Opens) -> usize
    ensures { result ≡ length bytes.now }
{
    opens.turn(body_frame(Sig {
        params: 0,
        param_count: 0,
        results: 0,
        result_count: 0,
    }));
    bytes.len()
}

/// The offset at which a step ended, or the one behind all bytes. So each turn asks for the offset alone.
#[inline(always)]
fn settled(end: Option<usize>, bytes: &[u8], opens: &mut Opens) -> usize
    ensures { (result ≡ length bytes.now) ⊎ ((end ≡ Some result) × (opens.new ≡ opens.old)) }
{
    match end {
        Some(end) => end,
        None => behind(bytes, opens),
    }
}

/// Takes all operators.
#[inline(always)]
fn run(tables: &Tables, bytes: &[u8], start: usize, stack: &mut Stack, opens: &mut Opens) -> bool
    requires { start ≤ length bytes.now }
    ensures { result ≡ true → (ids : List TypeTree) (z : Settings) (g : Context) → Fits ids z bytes.now tables.now g
        → Goes ids z bytes.now tables.now g start (all opens.old) stack.old }
{
    if bytes.len() == 0 || tables.certain > tables.locals.as_slice().len() {
        return false;
    }
    let last = bytes.len() - 1;
    let locals = &tables.locals.as_slice()[..tables.certain];
    let mut at = start;
    while at < last {
        at = next(tables, locals, bytes, at, stack, opens);
    }
    finish(tables, bytes, at, stack, opens)
}

// The frame of a body with these results.
#[inline(always)]
fn body_frame(results: Sig) -> Open
    ensures { result ≡ outermost results }
{
    Open {
        kind: FrameKind::Block,
        base: 0,
        set: 0,
        sig: Sig {
            params: 0,
            param_count: 0,
            results: results.results,
            result_count: results.result_count,
        },
    }
}

/// What bodies are judged in: operands and frames, in memory that the next body uses again; and whether the last body was refused memory.
#[derive(Drop)]
pub struct Room {
    stack: Stack,
    frames: Pile<Open>,
    lacks: bool,
    alloc: Global,
}

impl Room {
    /// One for no body yet. It takes no memory.
    pub fn new(alloc: Global) -> Room {
        Room {
            stack: Stack::new(alloc),
            frames: Pile::new(alloc),
            lacks: false,
            alloc,
        }
    }

    /// Whether the bytes from an offset on spell the body of a function, as these tables tell of it. It may say no of one that they do
    /// spell: [`Room::lacks_memory`] tells whether for want of memory.
    pub fn accepts(&mut self, tables: &Tables, bytes: &[u8], start: usize) -> bool
        requires { start ≤ length bytes.now }
        ensures { result ≡ true → (ids : List TypeTree) (z : Settings) (g : Context) → Fits ids z bytes.now tables.now g
            → (params : ℕ) → BeginSet tables.now params
            → (c : Code) × SpelledExpression z c (drop start bytes.now) × IsBody g params c }
    {
        // a body that has more operands at a time is left to the validator of operators
        let places = (bytes.len() - start + 64).min(8192);
        if !self.stack.begin(places) {
            self.lacks = true;
            return false;
        }
        // taken out, so that no pointer leads to what the loop counts by, and it can stay in registers
        let frames = mem::replace(&mut self.frames, Pile::new(self.alloc));
        let Some(mut opens) = Opens::begin(frames, body_frame(tables.results)) else {
            self.lacks = true;
            return false;
        };
        let mut stack = mem::replace(&mut self.stack, Stack::new(self.alloc));
        let valid = run(tables, bytes, start, &mut stack, &mut opens);
        self.stack = stack;
        self.frames = opens.into_memory();
        self.lacks = self.frames.lacks_memory();
        valid
    }

    /// Whether a growth was refused while the last body was judged.
    pub fn lacks_memory(&self) -> bool {
        self.lacks
    }
}
