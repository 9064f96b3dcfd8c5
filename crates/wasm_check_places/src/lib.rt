//! Where in a module an offset is, in parts: the section and the item, or the function; and how a place is told.
//!
//! [`Passed`] follows the payloads of a module as far as the one that has the offset, and [`spot_of`] the items of a section. A [`Place`] has what
//! was found. [`told`] makes the lines for people and the members for programs, both of the parts of one place. Names are as the module
//! spells them: whoever writes them has to see that they stay in their lines. No verdict rests on a place.
#![tactic(auto)]

mod explanation;
mod items;
mod judged;
mod lines;
mod members;
mod names;
mod passed;
mod place;
mod sections;

pub use explanation::told;
pub use items::{Spot, spot_of};
pub use judged::{Judged, payloads};
pub use names::name_of;
pub use passed::Passed;
pub use place::{
    CUT, Function, Item, Note, Offsets, OpenFrame, Operands, OperatorAt, Place, Signature,
};
pub use sections::{Part, offsets_of, part_of};
