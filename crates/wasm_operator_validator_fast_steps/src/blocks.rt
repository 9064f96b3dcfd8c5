//! Frames that begin, turn and end.

ghost use Rattle.std.specs.Prelude.{◌≡◌, ◌<◌, ◌≤◌, ◌+◌, ◌∷◌, ℕ, List, true, length, get_or, [], IfSome};
ghost use Rattle.wasm_operators_frequent.specs.Short.{Begins};
ghost use Rattle.wasm_operator_validator_fast_tables.specs.Loop.{Leads, Goes, Enters, Leaves, all};
ghost use Rattle.wasm_types.specs.settings.Settings.{Settings};
ghost use Rattle.wasm_types.specs.trees.Trees.{TypeTree};
ghost use Rattle.wasm_operator_validator_fast_tables.specs.Stacks.{Values, lying};
ghost use Rattle.wasm_operator_validator_fast_tables.specs.Values.{IsLowered};
ghost use Rattle.wasm_operator_validator_rules.specs.Context.{Context};
ghost use Rattle.wasm_operator_validator_rules.specs.Typed.{MayClose};
ghost use Rattle.wasm_types.specs.values.Decode.{begins_index};
ghost use Rattle.wasm_operator_validator_fast_tables.specs.Tables.{Fits, results_in, signature_in};
ghost use Rattle.wasm_operator_validator_fast_tables.specs.Written.{IsBlockAt};

use wasm_operator_validator_fast_tables::{
    Open, Opens, Sig, Stack, Tables, begins_index, is_bare, part, value_at,
};
use wasm_operator_validator_state::FrameKind;
use wasm_types_decoding::short_s33_at;

// The signature of a block by the index of its type, and the offset behind it.
#[inline(always)]
fn block_by_index(tables: &Tables, bytes: &[u8], at: usize) -> Option<(Sig, usize)>
    requires inside { at < length bytes.now }
    requires begins { begins_index (get_or bytes.now at 0) ≡ true }
    ensures { IfSome result (λ r. IsBlockAt bytes.now tables.now at r.0 r.1) }
{
    let Some((index, end)) = short_s33_at(bytes, at) else {
        return None;
    };
    if index < 0 || index >= 0x1_0000_0000 {
        return None;
    }
    let index = index as u32 as usize;
    let types = tables.known.types.as_slice();
    if index >= types.len() {
        return None;
    }
    let sig = types[index];
    if sig.param_count as usize > tables.known.flat.as_slice().len() {
        return None;
    }
    Some((sig, end))
}

// The signature of a block of no operands.
#[inline(always)]
fn bare() -> Sig
    ensures signature { (ids : List TypeTree) (flat : List ℕ)
        → signature_in ids flat result ≡ record { params = []; results = [] } }
    ensures params { result.param_count ≡ 0 }
{
    Sig {
        params: 0,
        param_count: 0,
        results: 0,
        result_count: 0,
    }
}

// The signature of a block of one result, whose code stands at this place.
#[inline(always)]
fn single(place: u32) -> Sig
    ensures { result ≡ record { params = 0; param_count = 0; results = place; result_count = 1 } }
{
    Sig {
        params: 0,
        param_count: 0,
        results: place,
        result_count: 1,
    }
}

// The signature of a block whose type is an index or a reference, and the offset behind its type.
#[inline(never)]
fn other_block_at(tables: &Tables, bytes: &[u8], at: usize) -> Option<(Sig, usize)>
    requires { at < length bytes.now }
    ensures { IfSome result (λ r. IsBlockAt bytes.now tables.now at r.0 r.1) }
{
    if begins_index(bytes[at]) {
        return block_by_index(tables, bytes, at);
    }
    let Some((_code, place, end)) = value_at(tables, bytes, at) else {
        return None;
    };
    Some((single(place), end))
}

/// The signature of a block, and the offset behind its type.
#[inline(always)]
pub fn block_at(tables: &Tables, bytes: &[u8], at: usize) -> Option<(Sig, usize)>
    ensures { IfSome result (λ r. IsBlockAt bytes.now tables.now at r.0 r.1) }
{
    if at >= bytes.len() {
        return None;
    }
    match bytes[at] {
        0x40 => Some((bare(), at + 1)),
        0x7f => Some((single(0), at + 1)),
        0x7e => Some((single(1), at + 1)),
        0x7d => Some((single(2), at + 1)),
        0x7c => Some((single(3), at + 1)),
        _ => other_block_at(tables, bytes, at),
    }
}

// A frame begins that takes nothing.
#[inline(always)]
fn enter_bare(kind: FrameKind, sig: Sig, stack: &mut Stack, opens: &mut Opens) -> bool
    requires { sig.param_count ≡ 0 }
    ensures { result ≡ true → (flat : List ℕ) → Enters flat kind sig stack.old stack.new
        opens.old.inner opens.old.outer opens.new.inner opens.new.outer }
{
    let base = stack.enter();
    let set = opens.inner().set;
    opens.nest(Open {
        kind,
        base,
        set,
        sig,
    })
}

/// A frame begins.
#[inline(always)]
pub fn enter(
    tables: &Tables,
    kind: FrameKind,
    sig: Sig,
    stack: &mut Stack,
    opens: &mut Opens,
) -> bool
    ensures { result ≡ true → (m : Values) × IsLowered tables.now.known.order stack.old m
        × Enters tables.now.known.flat.items kind sig m stack.new
        opens.old.inner opens.old.outer opens.new.inner opens.new.outer }
{
    if sig.param_count == 0 {
        return enter_bare(kind, sig, stack, opens);
    }
    let Some(params) = part(tables.known.flat.as_slice(), sig.params, sig.param_count) else {
        return false;
    };
    if !stack.take_all(&tables.known.order, params) {
        return false;
    }
    let base = stack.enter();
    if !stack.put_all(params) {
        return false;
    }
    let set = opens.inner().set;
    opens.nest(Open {
        kind,
        base,
        set,
        sig,
    })
}

/// A block begins.
#[inline(always)]
pub fn block(
    tables: &Tables,
    bytes: &[u8],
    at: usize,
    stack: &mut Stack,
    opens: &mut Opens,
) -> Option<usize>
    requires begins { Begins bytes.now at 0x02 }
    requires more { at + 1 < length bytes.now }
    ensures leads { IfSome result (λ end. Leads bytes.now tables.now at (all opens.old) stack.old
        end (all opens.new) stack.new) }
    ensures forward { IfSome result (λ end. at < end) }
    ensures inside { IfSome result (λ end. end ≤ length bytes.now) }
{
    if bytes[at + 1] == 0x40 {
        if !enter_bare(FrameKind::Block, bare(), stack, opens) {
            return None;
        }
        return Some(at + 1 + 1);
    }
    let Some((sig, end)) = block_at(tables, bytes, at + 1) else {
        return None;
    };
    if !enter(tables, FrameKind::Block, sig, stack, opens) {
        return None;
    }
    Some(end)
}

/// A loop begins.
#[inline(always)]
pub fn begin_loop(
    tables: &Tables,
    bytes: &[u8],
    at: usize,
    stack: &mut Stack,
    opens: &mut Opens,
) -> Option<usize>
    requires begins { Begins bytes.now at 0x03 }
    requires more { at + 1 < length bytes.now }
    ensures leads { IfSome result (λ end. Leads bytes.now tables.now at (all opens.old) stack.old
        end (all opens.new) stack.new) }
    ensures forward { IfSome result (λ end. at < end) }
    ensures inside { IfSome result (λ end. end ≤ length bytes.now) }
{
    if bytes[at + 1] == 0x40 {
        if !enter_bare(FrameKind::Loop, bare(), stack, opens) {
            return None;
        }
        return Some(at + 1 + 1);
    }
    let Some((sig, end)) = block_at(tables, bytes, at + 1) else {
        return None;
    };
    if !enter(tables, FrameKind::Loop, sig, stack, opens) {
        return None;
    }
    Some(end)
}

/// A choice begins.
#[inline(always)]
pub fn begin_if(
    tables: &Tables,
    bytes: &[u8],
    at: usize,
    stack: &mut Stack,
    opens: &mut Opens,
) -> Option<usize>
    requires begins { Begins bytes.now at 0x04 }
    requires more { at + 1 < length bytes.now }
    ensures leads { IfSome result (λ end. Leads bytes.now tables.now at (all opens.old) stack.old
        end (all opens.new) stack.new) }
    ensures forward { IfSome result (λ end. at < end) }
    ensures inside { IfSome result (λ end. end ≤ length bytes.now) }
{
    if bytes[at + 1] == 0x40 {
        if !stack.take(0) || !enter_bare(FrameKind::If, bare(), stack, opens) {
            return None;
        }
        return Some(at + 1 + 1);
    }
    let Some((sig, end)) = block_at(tables, bytes, at + 1) else {
        return None;
    };
    if !stack.take(0) || !enter(tables, FrameKind::If, sig, stack, opens) {
        return None;
    }
    Some(end)
}

/// The second part of a choice begins.
#[inline(always)]
pub fn turn(
    tables: &Tables,
    bytes: &[u8],
    at: usize,
    stack: &mut Stack,
    opens: &mut Opens,
) -> Option<usize>
    requires { Begins bytes.now at 0x05 }
    ensures leads { IfSome result (λ end. Leads bytes.now tables.now at (all opens.old) stack.old
        end (all opens.new) stack.new) }
    ensures forward { IfSome result (λ end. at < end) }
    ensures inside { IfSome result (λ end. end ≤ length bytes.now) }
{
    let frame = opens.inner();
    match frame.kind {
        FrameKind::If => {}
        _ => return None,
    }
    let sig = frame.sig;
    let flat = tables.known.flat.as_slice();
    let Some(results) = part(flat, sig.results, sig.result_count) else {
        return None;
    };
    let Some(params) = part(flat, sig.params, sig.param_count) else {
        return None;
    };
    if !stack.take_all(&tables.known.order, results)
        || !stack.is_empty()
        || !stack.put_all(params)
    {
        return None;
    }
    let set = opens.set_before();
    opens.turn(Open {
        kind: FrameKind::Else,
        base: frame.base,
        set,
        sig,
    });
    Some(at + 1)
}

// Whether a frame may end here: a choice without a second part may if it takes and gives nothing.
#[inline(always)]
fn may_close(frame: &Open) -> bool
    ensures { result ≡ true → (ids : List TypeTree) (flat : List ℕ)
        → MayClose frame.now.kind (signature_in ids flat frame.now.sig) }
{
    match frame.kind {
        FrameKind::Block => true,
        FrameKind::Loop => true,
        FrameKind::Else => true,
        FrameKind::TryTable => true,
        FrameKind::If => frame.sig.param_count == 0 && frame.sig.result_count == 0,
        _ => false,
    }
}

// The innermost frame's operands are its results alone, which lie on those under it then.
#[inline(always)]
fn leave(tables: &Tables, frame: &Open, stack: &mut Stack) -> bool
    ensures { result ≡ true → (m : Values) × IsLowered tables.now.known.order stack.old m
        × Leaves tables.now.known.flat.items frame.now m stack.new }
{
    if is_bare(frame.sig) {
        return stack.leave(frame.base);
    }
    if !may_close(frame) {
        return false;
    }
    if frame.sig.result_count == 1 {
        return leave_one(tables, frame, stack);
    }
    let Some(results) = part(
        tables.known.flat.as_slice(),
        frame.sig.results,
        frame.sig.result_count,
    ) else {
        return false;
    };
    if !stack.take_all(&tables.known.order, results) || !stack.leave(frame.base) {
        return false;
    }
    stack.put_all(results)
}

// The same of a frame that gives one operand, which needs no list.
#[inline(always)]
fn leave_one(tables: &Tables, frame: &Open, stack: &mut Stack) -> bool
    requires { frame.now.sig.result_count ≡ 1 }
    ensures { result ≡ true → (code : ℕ) × (m : Values)
        × (code ∷ [] ≡ results_in tables.now.known.flat.items frame.now.sig)
        × IsLowered tables.now.known.order stack.old (code ∷ m.0, m.1)
        × (m.0 ≡ []) × (stack.new ≡ (code ∷ (lying frame.now.base m.1).0, (lying frame.now.base m.1).1)) }
{
    let flat = tables.known.flat.as_slice();
    let place = frame.sig.results as usize;
    if place >= flat.len() {
        return false;
    }
    let code = flat[place];
    if !stack.take_below(&tables.known.order, code) || !stack.leave(frame.base) {
        return false;
    }
    stack.put(code)
}

/// The innermost frame ends, and is not the last.
#[inline(always)]
pub fn end(
    tables: &Tables,
    bytes: &[u8],
    at: usize,
    stack: &mut Stack,
    opens: &mut Opens,
) -> Option<usize>
    requires { Begins bytes.now at 0x0b }
    ensures leads { IfSome result (λ end. Leads bytes.now tables.now at (all opens.old) stack.old
        end (all opens.new) stack.new) }
    ensures forward { IfSome result (λ end. at < end) }
    ensures inside { IfSome result (λ end. end ≤ length bytes.now) }
{
    let frame = opens.inner();
    if !leave(tables, &frame, stack) || !opens.close() {
        return None;
    }
    Some(at + 1)
}

/// The last frame ends at the end of the bytes.
pub fn finish(tables: &Tables, bytes: &[u8], at: usize, stack: &mut Stack, opens: &Opens) -> bool
    ensures inside { result ≡ true → at < length bytes.now }
    ensures goes { result ≡ true → (ids : List TypeTree) (z : Settings) (g : Context) → Fits ids z bytes.now tables.now g
        → Goes ids z bytes.now tables.now g at (all opens.now) stack.old }
{
    if at >= bytes.len() || at + 1 != bytes.len() || bytes[at] != 0x0b || !opens.is_last() {
        return false;
    }
    let frame = opens.inner();
    leave(tables, &frame, stack)
}
