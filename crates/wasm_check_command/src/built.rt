//! What this build says of itself. In the repository it is of no release, and says neither that it is proved nor from which commit: no
//! file can name the commit that it is in. A release is built with this file written anew (tools/say-build), and proved with it.

/// What `--version` prints after the program's name.
pub const VERSION: &str = "0.2.0 (of no release)";

/// What it prints with `--json`.
pub(crate) const VERSION_JSON: &str =
    "{\"version\":\"0.2.0\",\"proved\":null,\"logic\":null,\"commit\":null}\n";
