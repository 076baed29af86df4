//! Groups that are read without cutting tokens, as far as their values stand plainly, with no blank or comment between.
ghost use Rattle.std.specs.Prelude.{◌≡◌, ◌≤◌, ◌<◌, ◌+◌, ◌^◌, ◌∷◌, [], length, IfOk, OnOk, IfSome};
ghost use Rattle.log_reader.specs.Cursors.{IsCounted};
ghost use Rattle.log_reader.specs.Groups.{mark_behind, read_to, ReadsValues, ReadsGroup, TakesGroup};

use crate::grammar::may_open;
use crate::limits::{Limits, Look};
use crate::partial::{Partial, push_event};
use crate::plain_tokens::blank_before;
use crate::plain_values::value_before;
use crate::recent_texts::RecentTexts;
use crate::stage::Stage;
use mfotl_model::{Row, Sort};
use std::alloc::{AllocError, Global};
use std::slice;

/// What was read of a group: its first values, the sorts of those that it lacks, and the offset behind.
#[derive(Drop)]
pub struct Read<'s> {
    args: Row,
    due: &'s [Sort],
    behind: usize,
}

// The mark behind a value of a group, by the sorts of those that come then.
fn mark_behind(due: &[Sort]) -> u8
    ensures { result ≡ mark_behind due.now }
{
    match due {
        [] => b')',
        _ => b',',
    }
}

// Two values behind a `(`, or the first of them.
fn pair_at<'s>(
    alloc: Global,
    texts: &mut RecentTexts,
    first: Sort,
    second: &'s Sort,
    look: Look<'_>,
    start: usize,
) -> Result<Option<Read<'s>>, AllocError>
    requires within { start ≤ length look.bytes.now }
    requires small { look.from + length look.bytes.now < 2 ^ 63 }
    ensures { IfOk result (λ found. IfSome found (λ read. ReadsValues look.entry.from look.entry.bytes.now
        look.entry.ended (first ∷ second.now ∷ []) start read.args read.due.now read.behind)) }
{
    let Some((left, at)) = value_before(alloc, texts, first, b',', look, start)? else {
        return Ok(None);
    };
    let Some((right, behind)) = value_before(alloc, texts, *second, b')', look, at)? else {
        return Ok(Some(Read {
            args: Row::empty().push(alloc, left)?,
            due: slice::from_ref(second),
            behind: at,
        }));
    };
    Ok(Some(Read {
        args: Row::pair(left, right),
        due: &[],
        behind,
    }))
}

// As many values as there are sorts behind a `(`, or the first of them.
fn row_at<'s>(
    alloc: Global,
    texts: &mut RecentTexts,
    sorts: &'s [Sort],
    look: Look<'_>,
    start: usize,
) -> Result<Option<Read<'s>>, AllocError>
    requires within { start ≤ length look.bytes.now }
    requires small { look.from + length look.bytes.now < 2 ^ 63 }
    ensures { IfOk result (λ found. IfSome found (λ read. ReadsValues look.entry.from look.entry.bytes.now
        look.entry.ended sorts.now start read.args read.due.now read.behind)) }
{
    let Some((first, more)) = sorts.split_first() else {
        return Ok(None);
    };
    let mark = mark_behind(more);
    let Some((value, past)) = value_before(alloc, texts, *first, mark, look, start)? else {
        return Ok(None);
    };
    let mut args = Row::empty().push(alloc, value)?;
    let mut due = more;
    let mut behind = past;
    while let Some((sort, more)) = due.split_first() {
        let mark = mark_behind(more);
        let Some((value, past)) = value_before(alloc, texts, *sort, mark, look, behind)? else {
            break;
        };
        args = args.push(alloc, value)?;
        due = more;
        behind = past;
    }
    Ok(Some(Read { args, due, behind }))
}

// The values of a group behind its `(`, as far as they stand plainly.
fn values_at<'s>(
    alloc: Global,
    texts: &mut RecentTexts,
    sorts: &'s [Sort],
    look: Look<'_>,
    start: usize,
) -> Result<Option<Read<'s>>, AllocError>
    requires within { start ≤ length look.bytes.now }
    requires small { look.from + length look.bytes.now < 2 ^ 63 }
    ensures { IfOk result (λ found. IfSome found (λ read. ReadsValues look.entry.from look.entry.bytes.now
        look.entry.ended sorts.now start read.args read.due.now read.behind)) }
{
    match sorts {
        [first, second] => pair_at(alloc, texts, *first, second, look, start),
        _ => row_at(alloc, texts, sorts, look, start),
    }
}

// The values of a group of these sorts, as far as they stand plainly, behind one blank at most. None also where only
// tokens say what stands there.
fn group_at<'s>(
    alloc: Global,
    texts: &mut RecentTexts,
    sorts: &'s [Sort],
    look: Look<'_>,
    at: usize,
) -> Result<Option<Read<'s>>, AllocError>
    requires within { at ≤ length look.bytes.now }
    requires small { look.from + length look.bytes.now < 2 ^ 63 }
    ensures { IfOk result (λ found. IfSome found (λ read. ReadsGroup look.entry.from look.entry.bytes.now
        look.entry.ended sorts.now at read.args read.due.now read.behind)) }
{
    let (_, front) = look.bytes.split_at(at);
    let blanks = blank_before(front);
    let (_, rest) = front.split_at(blanks);
    match rest {
        [mark, ..] if *mark == b'(' => values_at(alloc, texts, sorts, look, at + blanks + 1),
        _ => Ok(None),
    }
}

impl<'a> Partial<'a> {
    /// Takes a group straight from the bytes, if one may stand at an offset, or the front of one up to a value that
    /// doesn't stand plainly, and answers the offset behind it. It does what the tokens would do.
    pub fn take_group(
        &mut self,
        alloc: Global,
        limits: &Limits,
        look: Look<'_>,
        at: usize,
    ) -> Result<Option<usize>, AllocError>
        requires within { at ≤ length look.bytes.now }
        requires small { look.from + length look.bytes.now < 2 ^ 63 }
        requires counted { IsCounted self.old }
        ensures { IfOk result (λ found. TakesGroup limits.now look.entry.from look.entry.bytes.now look.entry.ended
            at self.old found self.new) }
    {
        if !may_open(self.stage) || self.groups >= limits.events || !self.args.values().is_empty() {
            return Ok(None);
        }
        let Some(read) = group_at(alloc, &mut self.texts, self.sorts, look, at)? else {
            return Ok(None);
        };
        let behind = read.behind;
        self.groups += 1;
        self.keep(read)?;
        Ok(Some(behind))
    }

    // Keeps what was read of a group: an event, where it has its `)`.
    #[tactic(auto, using(crate::proofs::GroupLemmas::some_due))]
    fn keep(&mut self, read: Read<'a>) -> Result<(), AllocError>
        requires { self.old.args ≡ [] }
        ensures { OnOk result (self.new ≡ read_to self.old read.entry.args read.entry.due.now) }
    {
        let Read { args, due, .. } = read;
        self.due = due;
        if due.is_empty() {
            push_event(&mut self.events, self.pred, args)?;
            self.stage = Stage::AfterClose;
        } else {
            self.args = args;
            self.stage = Stage::AfterComma;
        }
        Ok(())
    }
}
