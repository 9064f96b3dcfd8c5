//! The module that was refused.
ghost use Rattle.wasm_types.specs.settings.Limits.{IsWithinCeilings};

use std::alloc::Global;
use wasm_sections::{ParseAll, Parser};
use wasm_types::{Limits, WasmFeatures};

/// Bytes, and what they were judged by.
#[derive(Clone, Copy)]
pub struct Judged<'a> {
    pub alloc: Global,
    pub features: WasmFeatures,
    pub limits: Limits,
    pub bytes: &'a [u8],
}

/// The payloads of the module, in order.
pub fn payloads(judged: Judged<'_>) -> ParseAll<'_>
    requires within { IsWithinCeilings judged.limits }
{
    let mut parser = Parser::new(judged.alloc, 0);
    parser.set_features(judged.features);
    parser.set_limits(judged.limits);
    parser.parse_all(judged.bytes)
}
