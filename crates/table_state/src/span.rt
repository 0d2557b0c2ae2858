//! Spans of numbered rows.
ghost use Rattle.std.specs.Prelude.{◌≡◌, ℕ, IfSome};
ghost use Rattle.table_state.specs.Shown.{LiesIn};

/// A span of rows: those whose numbers are greater than `after`, up to `last`.
#[derive(Clone, Copy)]
pub(crate) struct Span {
    pub(crate) after: u32,
    pub(crate) last: u32,
}

/// Returns a span with a further number in it, or a new span if there is none. `None`: the number
/// is 0, which no row has.
pub(crate) fn with_number(span: Option<Span>, number: u32) -> Option<Span>
    ensures there { IfSome result (λ wider. LiesIn wider number) }
    ensures grows { IfSome result (λ wider. IfSome span (λ was. (n : ℕ)
        → LiesIn was n → LiesIn wider n)) }
{
    let before = number.checked_sub(1)?;
    let Some(span) = span else {
        return Some(Span {
            after: before,
            last: number,
        });
    };
    Some(Span {
        after: if before < span.after {
            before
        } else {
            span.after
        },
        last: if span.last < number {
            number
        } else {
            span.last
        },
    })
}
