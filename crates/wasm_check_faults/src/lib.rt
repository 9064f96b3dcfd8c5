//! The lists of the command line of `wasm-check`, and what is told of its faults.
//!
//! [`parse_features`] and [`parse_limits`] read lists of features and limits. A [`Fault`] says why a run came to no status of its files: a word of
//! such a list, a file that the system refuses (its [`Reason`]), or an error while inputs are judged ([`CheckError`]). [`Told`] is a fault as it is
//! told. [`needs_text`] tells which features a file needs, as a list of words. `specs/` defines the lists and the texts.
#![tactic(auto)]

mod error;
mod faults;
mod features;
mod limits;
mod lists;
mod reason;
mod word_lists;

pub use error::CheckError;
pub use faults::{Below, Fault, Told, faults_stay_in_line, is_silent};
pub use features::{
    UnknownFeature, every_feature, find_features, parse_features, parses_worked_features,
};
pub use limits::{
    FaultyWord, LimitFault, Wrong, default_limits, find_limits, number_in, parse_limits,
    parses_worked_limits,
};
pub use lists::ListedWord;
pub use reason::Reason;
pub use word_lists::{
    FeatureWord, all_features, features_with, minimal_lists_are_worked, needs_end_once, needs_text,
};
