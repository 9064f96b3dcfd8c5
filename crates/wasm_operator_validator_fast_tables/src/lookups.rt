//! Parts of the tables, and open frames.

ghost use Rattle.std.specs.Prelude.{◌≡◌, ◌≤◌, ◌∷◌, true, length, slice_get, Some, IfSome};
ghost use Rattle.wasm_operator_validator_fast_tables.specs.Stacks.{part as part_of};
ghost use Rattle.wasm_operator_validator_fast_tables.specs.Tables.{results_in, label_in};
ghost use Rattle.wasm_operator_validator_fast_tables.specs.Loop.{all};

use crate::opens::Opens;
use crate::tables::{Open, Sig};
use wasm_operator_validator_state::FrameKind;

/// So many codes from one on.
#[inline(always)]
pub fn part(flat: &[u32], from: u32, count: u32) -> Option<&[u32]>
    ensures value { IfSome result (λ s. s.now ≡ part_of from count flat.now) }
    ensures within { IfSome result (λ s. count ≤ length flat.now) }
{
    let from = from as usize;
    let count = count as usize;
    if count > flat.len() || from > flat.len() - count {
        return None;
    }
    let end = from + count;
    Some(&flat[from..end])
}

/// The results of the innermost frame.
#[inline(always)]
pub fn inner_results<'a>(flat: &'a [u32], opens: &Opens) -> Option<&'a [u32]>
    ensures { IfSome result (λ s. s.now ≡ results_in flat.now opens.now.inner.sig) }
{
    let sig = opens.inner().sig;
    part(flat, sig.results, sig.result_count)
}

/// The frame behind so many.
#[inline(always)]
pub fn frame_at(opens: &Opens, depth: u32) -> Option<Open>
    ensures { IfSome result (λ o. slice_get (all opens.now) depth ≡ Some o) }
{
    opens.behind(depth as usize)
}

/// Whether a frame takes and gives nothing.
#[inline(always)]
pub fn is_bare(sig: Sig) -> bool
    ensures { result ≡ true → (sig.param_count ≡ 0) × (sig.result_count ≡ 0) }
{
    sig.param_count == 0 && sig.result_count == 0
}

/// What a branch to a frame takes.
#[inline(always)]
pub fn label<'a>(flat: &'a [u32], kind: FrameKind, sig: Sig) -> Option<&'a [u32]>
    ensures { IfSome result (λ s. s.now ≡ label_in flat.now kind sig) }
{
    match kind {
        FrameKind::Loop => part(flat, sig.params, sig.param_count),
        FrameKind::Block => part(flat, sig.results, sig.result_count),
        FrameKind::If => part(flat, sig.results, sig.result_count),
        FrameKind::Else => part(flat, sig.results, sig.result_count),
        FrameKind::TryTable => part(flat, sig.results, sig.result_count),
        _ => None,
    }
}
