//! What reading asks of a visitor: three methods for all operators but those on vectors.

ghost use Rattle.std.specs.Prelude.{◌≡◌, false, IfSome, IfNone};
ghost use Rattle.wasm_operators_enums.specs.Op.{op_of};
ghost use Rattle.wasm_operators_enums.specs.Vectors.{is_simd};
ghost use Rattle.wasm_operators_frequent.specs.Short.{IsTold};

use crate::short::visit_short;
use wasm_operators_visit::{Operator, Visitor};
use wasm_operators_visit_operator::VisitOperator;
use wasm_types::WasmFeatures;

/// Can be told of any operator but those on vectors. A [`LentVisitor`] is told by the visit that belongs to the operator. A type
/// that has all visits may tell itself group by group (`visit_control` and its like, `short_alone` and its like), each in a
/// function of its own: then no function needs the evidence of all visits at once.
pub trait TellOperator<'a>: Visitor<'a> {
    /// Tells it of this operator, and hands the operator over.
    fn tell(&mut self, op: Operator<'a>) -> Self::Output
        requires { is_simd (op_of op) ≡ false }
        ensures { Self.visits self.old (op_of op.entry) result self.new };

    /// Tells it of the operator that begins at an offset in `bytes`, if it is a frequent one in a frequent form, and gives the
    /// answer with the offset behind the operator. None where it is another, or where the bytes spell none: it is then told
    /// nothing.
    fn tell_short(
        &mut self,
        bytes: &'a [u8],
        at: usize,
        features: WasmFeatures,
    ) -> Option<(Self::Output, usize)>
        ensures told { IfSome result (λ r. IsTold features.0 bytes.now at r.1
            (λ o. Self.visits self.old o r.0 self.new)) }
        ensures none { IfNone result (self.new ≡ self.old) };

    /// The same of operators whose first byte is at most 1f, control and parametric ones. All that open or close a frame are among
    /// them, so whoever looks after the frames asks nothing of them where the byte is larger. `tell_short` may answer None for these.
    fn tell_short_control(
        &mut self,
        bytes: &'a [u8],
        at: usize,
        features: WasmFeatures,
    ) -> Option<(Self::Output, usize)>
        ensures told { IfSome result (λ r. IsTold features.0 bytes.now at r.1
            (λ o. Self.visits self.old o r.0 self.new)) }
        ensures none { IfNone result (self.new ≡ self.old) };
}

/// A visitor of all operators but those on vectors that is lent: it is told of an operator by the visit that belongs to it.
#[derive(Drop)]
pub struct LentVisitor<'v, V> {
    /// The visitor.
    pub visitor: &'v mut V,
}

impl<'a, 'v, V: Visitor<'a>> Visitor<'a> for LentVisitor<'v, V> {
    type Output = V::Output;

    // The visitor's own relation; and it stays the same visitor that is lent.
    ghost visits = { λ before op answer after. V.visits before.visitor.now op answer after.visitor.now
        × (after.visitor.ghost_name ≡ before.visitor.ghost_name) };
}

impl<'a, 'v, V: VisitOperator<'a>> TellOperator<'a> for LentVisitor<'v, V> {
    #[inline]
    fn tell(&mut self, op: Operator<'a>) -> V::Output {
        self.visitor.visit_owned(op)
    }

    #[inline(always)]
    fn tell_short(
        &mut self,
        bytes: &'a [u8],
        at: usize,
        features: WasmFeatures,
    ) -> Option<(V::Output, usize)> {
        let Some((answer, end)) = visit_short(bytes, at, features, self.visitor) else {
            return None;
        };
        Some((answer, end))
    }

    #[inline(always)]
    fn tell_short_control(
        &mut self,
        bytes: &'a [u8],
        at: usize,
        features: WasmFeatures,
    ) -> Option<(V::Output, usize)> {
        let Some((answer, end)) = visit_short(bytes, at, features, self.visitor) else {
            return None;
        };
        Some((answer, end))
    }
}
