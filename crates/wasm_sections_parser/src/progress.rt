//! Where a parser stands.

ghost use Rattle.std.specs.Prelude.{◌≡◌};
ghost use Rattle.wasm_sections_parser.specs.Steps.{place_of, is_late, counted, in_code, one_less, begun, is_over, counts_agree, said, is_announced};

/// What comes next.
#[derive(Clone, Copy)]
pub enum Stage {
    /// The header.
    Header,
    /// A section, or the end.
    Sections,
    /// A body, or what follows the code section.
    Code {
        /// How many bodies are left.
        left: u32,
        /// The offset where the code section ends.
        end: u64,
    },
    /// Nothing: the end was given.
    Ended,
    /// Nothing: the module was refused.
    Failed,
}

/// Where a parser stands: what comes next, and what is to be remembered of the sections before.
#[derive(Clone, Copy)]
pub struct Progress {
    /// What comes next.
    pub stage: Stage,
    /// The place in the order of the last section that has one, else 0.
    pub last: u8,
    /// How many functions were declared.
    pub functions: u32,
    /// How many bodies were counted.
    pub bodies: u32,
    /// What the data count section said.
    pub data_count: Option<u32>,
    /// How many data segments were counted.
    pub segments: u32,
}

/// The place of a section in the order, by its id; 0 where it has none.
pub(crate) fn place_of(id: u8) -> u8
    ensures { result ≡ place_of id }
{
    if id == 5 {
        return 5;
    }
    if id < 5 {
        return id;
    }
    if id < 10 {
        return id + 1;
    }
    if id == 10 {
        return 12;
    }
    if id == 11 {
        return 13;
    }
    if id == 12 {
        return 11;
    }
    if id == 13 {
        return 6;
    }
    0
}

/// Whether a section of this id comes too late.
pub(crate) fn is_late(progress: &Progress, id: u8) -> bool
    ensures { result ≡ is_late progress.now id }
{
    let place = place_of(id);
    if place == 0 {
        return false;
    }
    place <= progress.last
}

/// Behind a section of this id, of which `count` items were counted.
pub(crate) fn counted(progress: Progress, id: u8, count: u32) -> Progress
    ensures { result ≡ counted progress id count }
{
    let place = place_of(id);
    Progress {
        stage: Stage::Sections,
        last: if place == 0 { progress.last } else { place },
        functions: if id == 3 { count } else { progress.functions },
        bodies: progress.bodies,
        data_count: if id == 12 {
            Some(count)
        } else {
            progress.data_count
        },
        segments: if id == 11 { count } else { progress.segments },
    }
}

/// Behind the start of a code section that ends at `end`.
pub(crate) fn in_code(progress: Progress, count: u32, end: u64) -> Progress
    ensures { result ≡ in_code progress count end }
{
    Progress {
        stage: Stage::Code { left: count, end },
        last: 12,
        functions: progress.functions,
        bodies: count,
        data_count: progress.data_count,
        segments: progress.segments,
    }
}

/// Behind one of `left` bodies of a code section that ends at `end`.
pub(crate) fn one_less(progress: Progress, left: u32, end: u64) -> Progress
    ensures { result ≡ one_less progress left end }
{
    Progress {
        stage: Stage::Code {
            left: left.saturating_sub(1),
            end,
        },
        last: progress.last,
        functions: progress.functions,
        bodies: progress.bodies,
        data_count: progress.data_count,
        segments: progress.segments,
    }
}

/// Whether nothing comes any more.
pub(crate) fn is_over(progress: &Progress) -> bool
    ensures { result ≡ is_over progress.now }
{
    match progress.stage {
        Stage::Header => false,
        Stage::Sections => false,
        Stage::Code { left: _, end: _ } => false,
        Stage::Ended => true,
        Stage::Failed => true,
    }
}

/// Whether as many bodies stand as functions, and as many data segments as the data count says.
pub(crate) fn counts_agree(progress: &Progress) -> bool
    ensures { result ≡ counts_agree progress.now }
{
    if progress.functions != progress.bodies {
        return false;
    }
    are_announced(progress)
}

/// Whether as many data segments stand as the data count says.
fn are_announced(progress: &Progress) -> bool
    ensures { result ≡ said progress.now.data_count progress.now.segments }
{
    match progress.data_count {
        Some(count) => count == progress.segments,
        None => true,
    }
}

/// Whether as many data segments stand as the data count says, if this is the data section.
pub(crate) fn is_announced(progress: &Progress, id: u8) -> bool
    ensures { result ≡ is_announced id progress.now }
{
    if id != 11 {
        return true;
    }
    are_announced(progress)
}

/// Behind the header.
pub(crate) fn begun(progress: Progress) -> Progress
    ensures { result ≡ begun progress }
{
    Progress {
        stage: Stage::Sections,
        last: progress.last,
        functions: progress.functions,
        bodies: progress.bodies,
        data_count: progress.data_count,
        segments: progress.segments,
    }
}
