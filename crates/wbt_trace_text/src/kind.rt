//! What a line is about, and the words that it begins with.

ghost use Rattle.std.specs.Prelude.{◌≡◌, ◌∷◌, ◌++◌, [], IfSome, IfNone};
ghost use Rattle.wbt_trace_text.specs.Lines as spec;
ghost use Rattle.wbt_trace_text.specs.declared.kind.Kind.{Kind as KindValue};

/// What a line is about.
#[derive(Clone, Copy)]
pub enum Kind {
    Cpus,
    Cap,
    DirtyRatio,
    BackgroundRatio,
    DirtyBytes,
    BackgroundBytes,
    Avail,
    Device,
    Strict,
    Chunk,
    Cyclic,
    Cgroup,
    Context,
    Expire,
    Estimate,
    Inode,
    Task,
    Pace,
    Flusher,
    Write,
    Rest,
    Order,
    OrderTimer,
    Tick,
    Halt,
}

// Each kind, those first of which a long trace has many lines.
static KINDS: [Kind; 25] = [
    Kind::Write,
    Kind::Rest,
    Kind::Order,
    Kind::OrderTimer,
    Kind::Tick,
    Kind::Inode,
    Kind::Task,
    Kind::Pace,
    Kind::Avail,
    Kind::Context,
    Kind::Expire,
    Kind::Estimate,
    Kind::Flusher,
    Kind::Device,
    Kind::Strict,
    Kind::Chunk,
    Kind::Cyclic,
    Kind::Cgroup,
    Kind::Cpus,
    Kind::Cap,
    Kind::DirtyRatio,
    Kind::BackgroundRatio,
    Kind::DirtyBytes,
    Kind::BackgroundBytes,
    Kind::Halt,
];

/// What a line of the kind begins with, up to its first number.
pub fn front_text(kind: Kind) -> &'static [u8]
    ensures { result.now ≡ spec.kind_text kind ++ 32 ∷ [] }
{
    match kind {
        Kind::Cpus => b"cpus ",
        Kind::Cap => b"cap ",
        Kind::DirtyRatio => b"set dirty_ratio ",
        Kind::BackgroundRatio => b"set dirty_background_ratio ",
        Kind::DirtyBytes => b"set dirty_bytes ",
        Kind::BackgroundBytes => b"set dirty_background_bytes ",
        Kind::Avail => b"avail ",
        Kind::Device => b"device ",
        Kind::Strict => b"strict ",
        Kind::Chunk => b"chunk ",
        Kind::Cyclic => b"cyclic ",
        Kind::Cgroup => b"cgroup ",
        Kind::Context => b"context ",
        Kind::Expire => b"expire ",
        Kind::Estimate => b"estimate ",
        Kind::Inode => b"inode ",
        Kind::Task => b"task ",
        Kind::Pace => b"pace ",
        Kind::Flusher => b"flusher ",
        Kind::Write => b"write ",
        Kind::Rest => b"rest ",
        Kind::Order => b"order ",
        Kind::OrderTimer => b"order timer ",
        Kind::Tick => b"tick ",
        Kind::Halt => b"halt ",
    }
}

/// The kind of a line that begins so.
pub fn kind_of(front: &[u8]) -> Option<Kind>
    ensures found { IfSome result (λ kind. front.now ≡ spec.kind_text kind ++ 32 ∷ []) }
    ensures none { IfNone result ((kind : KindValue) → front.now ≡ spec.kind_text kind ++ 32 ∷ [] → ⊥) }
{
    for i in 0..KINDS.len() {
        if front == front_text(KINDS[i]) {
            return Some(KINDS[i]);
        }
    }
    None
}
