//! Laws of reading in a frame, each the contract of a function that does nothing.

ghost use Rattle.std.specs.Prelude.{◌↔◌, List};
ghost use Rattle.wasm_types.specs.decoding.Decoder.{State};
ghost use Rattle.wasm_types.specs.decoding.ErrorValue.{ErrorValue};
ghost use Rattle.wasm_operators_immediates.specs.declared.frames.FrameKind.{FrameKind as Kind};
ghost use Rattle.wasm_operators_enums.specs.Op.{Op};
ghost use Rattle.wasm_operators_encoding.specs.expressions.Stack.{innermost};
ghost use Rattle.wasm_operators_reader.specs.Standing.{Reads, Refuses};
ghost use Rattle.wasm_operators_reader.specs.walks.InFrame.{ReadsIn, RefusesIn};

/// Whoever knows the innermost open frame alone reads what a reader with that frame innermost reads, and is refused for the same
/// reasons: so `peek_operator`, with such a reader as its stack, answers what its `read` would.
pub const fn the_innermost_frame_decides()
    ensures reads { (frames : List Kind) (s b : State) (o : Op)
        → ReadsIn (innermost frames) s o b ↔ ((js : List Kind)
        × Reads (record { bytes = s; frames = frames }) o (record { bytes = b; frames = js })) }
    ensures refuses { (frames : List Kind) (s : State) (e : ErrorValue)
        → RefusesIn (innermost frames) s e ↔ Refuses (record { bytes = s; frames = frames }) e }
{}
