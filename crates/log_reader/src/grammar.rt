//! The grammar of logs, token by token: which stage stands behind a token, and what each stage lets follow.
ghost use Rattle.std.specs.Prelude.{◌≡◌};
ghost use Rattle.std.specs.Char.{is_ascii_digit};
ghost use Rattle.std.specs.List.{list_all};
ghost use Rattle.log_reader.specs.Groups.{may_open};
ghost use Rattle.log_reader.specs.Stages.{stage_after, is_whole, read_on};
ghost use Rattle.log_reader.specs.Symbols.{ends_point, symbol_of, is_digits};

use crate::stage::Stage;
use mfotl_lex::Kind;

pub fn is_digits(text: &[u8]) -> bool
    ensures { result ≡ is_digits text.now }
{
    match text {
        [] => false,
        _ => all_digits(text),
    }
}

fn all_digits(text: &[u8]) -> bool
    ensures { result ≡ list_all is_ascii_digit text.now }
{
    text.iter().all(|b| b.is_ascii_digit())
}

/// The stage behind a token, if the grammar goes on with it.
pub fn stage_behind(stage: Stage, kind: Kind, content: &[u8]) -> Option<Stage>
    ensures { result ≡ stage_after stage (symbol_of kind content.now) }
{
    match (stage, kind) {
        (Stage::Between | Stage::AfterStamp | Stage::AfterClose, Kind::At) => Some(Stage::AfterAt),
        (Stage::AfterAt, Kind::Word) => is_digits(content).then_some(Stage::AfterStamp),
        (Stage::AfterStamp | Stage::AfterClose, Kind::Word) => Some(Stage::AfterName),
        (Stage::AfterName | Stage::AfterClose, Kind::OpenParen) => Some(Stage::AfterOpen),
        (Stage::AfterOpen | Stage::AfterComma, Kind::Word | Kind::Text) => Some(Stage::AfterValue),
        (Stage::AfterOpen | Stage::AfterValue, Kind::CloseParen) => Some(Stage::AfterClose),
        (Stage::AfterValue, Kind::Comma) => Some(Stage::AfterComma),
        (Stage::AfterStamp | Stage::AfterClose, Kind::Semicolon) => Some(Stage::Between),
        _ => None,
    }
}

/// Whether the present time-point is whole if nothing more of it comes.
pub fn is_whole(stage: Stage) -> bool
    ensures { result ≡ is_whole stage }
{
    matches!(stage, Stage::AfterStamp | Stage::AfterClose)
}

/// Whether a group may begin.
pub fn may_open(stage: Stage) -> bool
    ensures { result ≡ may_open stage }
{
    matches!(stage, Stage::AfterName | Stage::AfterClose)
}

/// Whether no more of the present time-point comes behind a token of this kind.
pub fn ends_point(kind: Kind, content: &[u8]) -> bool
    ensures { result ≡ ends_point (symbol_of kind content.now) }
{
    matches!(kind, Kind::At | Kind::Semicolon)
}

/// From which offset a log is read on behind a time-point that a token of this kind completes: behind
/// a `;`, but before an `@`, which begins the next one.
pub fn read_on(kind: Kind, before: usize, behind: usize) -> usize
    ensures { result ≡ read_on kind before behind }
{
    match kind {
        Kind::Semicolon => behind,
        _ => before,
    }
}
