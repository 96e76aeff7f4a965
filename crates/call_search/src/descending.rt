//! Going down from the root to what is asked for, one instance after the other.
//!
//! What this keeps is looked up by [`fill`](crate::fill::fill), which answers for it.

ghost use Rattle.std.specs.Prelude.{◌≡◌, ◌<◌, ◌≤◌, ◌+◌, ◌++◌, ◌∷◌, [], set, true, IfOk, OnOk, MatchBool, length};
ghost use Rattle.std.specs.List.{All};
ghost use Rattle.zo_core.specs.Literals.{Literal};
ghost use Rattle.verdict_meaning.specs.Systems.{root, callee, callees, count};
ghost use Rattle.verdict_meaning.specs.Solutions.{phi_by, sigma_by};
ghost use Rattle.verdict_meaning.specs.Certificates.{bit_at};
ghost use Rattle.verdict_meaning.specs.Derivations.{IsRightLine};
ghost use Rattle.call_search.specs.Sites.{IsSaidAt};
ghost use Rattle.call_search.specs.Ledgers.{IsDenied, IsGiven, IsLedger, IsNew};
ghost use Rattle.call_search.specs.Entries.{in_group, AreKept, AreSized, IsAnswered, NoneAnswers};
ghost use Rattle.call_search.specs.Answers.{IsAsker, given_for};
ghost use Rattle.call_search.specs.Frames.{AreFrames, AreNested, DescendedIs, EndsWith, IsFinished, IsFirst, MarkIs, SteppedIs, TellsIs, WasSaid, frame_at, frame_of, past};

use crate::entries::{Entries, Entry, asked_face, is_there, listed, put};
use crate::fill::{Asked, given_for};
use crate::given::copied;
use crate::groups::{Groups, Outcome};
use crate::keeping::refute;
use crate::ledger::{Ledger, last_line};
use crate::site::{add, is_of_fields, said_at};
use c_tree::Memory;
use conflict_proof::Line;
use own_cert::Bits;
use std::alloc::Global;
use verdict_meaning::local_lines_are_true;
use zo_core::Lit;

/// What came of a step.
#[derive(Drop)]
pub enum Step {
    /// There are frames to go on with.
    On,
    /// The descent has ended.
    Ended(Asked),
}

/// The mark for a field.
#[derive(Drop)]
enum Mark {
    Missing,
    /// It stands there, and is not set.
    Clear(usize),
    Set,
}

/// An instance, or the root, of which the sites before this one have what they ask for, or were told that it is not to be had.
#[derive(Drop)]
pub struct Frame {
    pub group: u32,
    pub site: u32,
    pub bits: Bits,
    /// Whether a line was carried here, which the bits make false.
    pub refuted: bool,
    /// Of the root, for each field whether it is that of the first literal of a line of fields that was carried here. Empty for
    /// an instance.
    pub marks: Bits,
}

/// The root's frame, without marks.
fn first_frame<G: Groups>(alloc: Global, groups: &G, top: &[bool]) -> Result<Vec<Frame>, Memory>
    ensures { IfOk result (λ v. IsFirst (root (G.system groups.now)) top.now v.items) }
{
    let items = copied(alloc, top)?;
    let marks = vec![in alloc; false; groups.fields() as usize]?;
    let mut stack = Vec::new(alloc);
    stack.push(Frame {
        group: groups.root(),
        site: 0,
        bits: Bits { items },
        refuted: false,
        marks: Bits { items: marks },
    })?;
    Ok(stack)
}

/// Whether an instance is kept for which the site of a frame asks.
fn is_kept<G: Groups>(groups: &G, kept: &Vec<Entries>, frame: &Frame) -> bool
    requires group { frame.now.group ≤ root (G.system groups.now) }
    requires site { frame.now.site < length (callees (G.system groups.now) frame.now.group) }
    requires size { length frame.now.bits ≡ count (G.system groups.now) frame.now.group }
    requires table { length kept.now.items ≡ root (G.system groups.now) }
    requires sized { AreSized (G.system groups.now) kept.now.items }
    ensures { let c = callee (G.system groups.now) frame.now.group frame.now.site in
        let face = sigma_by (G.system groups.now) frame.now.group (bit_at frame.now.bits) frame.now.site in
        MatchBool result (IsAnswered (G.system groups.now) (in_group kept.now.items c.group) c face)
        (NoneAnswers (G.system groups.now) (in_group kept.now.items c.group) c face) }
{
    let callee = groups.callee(frame.group, frame.site);
    let bits = frame.bits.items.as_slice();
    let face = asked_face(groups, bits, frame.group, frame.site);
    is_there(groups, listed(kept, callee.group), callee, face)
}

/// Keeps the instance of a frame that has all that it asks for, and goes on with the frame that asks for it. The root is no
/// instance.
fn finish<G: Groups>(
    groups: &G,
    kept: &mut Vec<Entries>,
    stack: &mut Vec<Frame>,
    frame: Frame,
) -> Result<(), Memory>
    requires nested { AreNested (G.system groups.now) (stack.old.items ++ frame ∷ []) }
    requires table { length kept.old.items ≡ root (G.system groups.now) }
    ensures { OnOk result (IsFinished (G.system groups.now) frame.bits kept.old.items kept.new.items stack.old.items stack.new.items) }
{
    let Some(mut asker) = stack.pop() else {
        return Ok(());
    };
    let callee = groups.callee(asker.group, asker.site);
    let entry = Entry {
        group: callee.group,
        proc: callee.proc,
        bits: frame.bits,
    };
    put(kept, entry)?;
    asker.site += 1;
    stack.push(asker)?;
    Ok(())
}

/// The answer, where no frame is left.
fn ended(stack: &Vec<Frame>, answer: Asked) -> Step
    ensures { EndsWith stack.now.items answer result }
{
    if stack.is_empty() {
        Step::Ended(answer)
    } else {
        Step::On
    }
}

/// Leaves a frame without a further site. Where a line was carried to it, the one that asks for it asks again; else its
/// instance is kept.
fn leave<G: Groups>(
    groups: &G,
    ledger: &Ledger,
    phi: &[bool],
    kept: &mut Vec<Entries>,
    stack: &mut Vec<Frame>,
    frame: Frame,
) -> Result<Step, Memory>
    requires ledger { IsLedger (G.system groups.now) (G.counting groups.now) ledger.now }
    requires frames { AreFrames (G.system groups.now) (G.counting groups.now) ledger.now.lines phi.now (stack.old.items ++ frame ∷ []) }
    requires kept { AreKept (G.system groups.now) (G.counting groups.now) ledger.now.lines phi.now kept.old.items }
    ensures { IfOk result (SteppedIs (G.system groups.now) (G.counting groups.now) phi.now ledger.now ledger.now kept.new.items (stack.old.items ++ frame ∷ []) stack.new.items) }
{
    if frame.refuted {
        return Ok(ended(stack, Asked::Carried));
    }
    finish(groups, kept, stack, frame)?;
    Ok(ended(stack, Asked::Kept))
}

/// Adds a line, and drops the instances that it refutes; gives the line back, where the words don't suffice.
fn tell<G: Groups>(
    alloc: Global,
    groups: &G,
    ledger: &mut Ledger,
    kept: &mut Vec<Entries>,
    line: Line,
) -> Result<Option<Line>, Memory>
    requires ledger { IsLedger (G.system groups.now) (G.counting groups.now) ledger.old }
    requires right { IsRightLine (G.system groups.now) (G.counting groups.now) ledger.old.lines (length ledger.old.lines + 1) line }
    requires new { IsNew ledger.old.lines line.group line.lits }
    ensures { IfOk result (TellsIs (G.system groups.now) (G.counting groups.now) line ledger.old ledger.new kept.old.items kept.new.items) }
{
    if let Some(next) = add(alloc, groups, ledger, line)? {
        return Ok(Some(next));
    }
    refute(kept, last_line(ledger));
    Ok(None)
}

/// Carries a line to a frame and goes on past its site.
fn go_past<G: Groups>(
    alloc: Global,
    groups: &G,
    ledger: &mut Ledger,
    phi: &[bool],
    kept: &mut Vec<Entries>,
    stack: &mut Vec<Frame>,
    mut frame: Frame,
    line: Line,
) -> Result<Step, Memory>
    requires ledger { IsLedger (G.system groups.now) (G.counting groups.now) ledger.old }
    requires frames { AreFrames (G.system groups.now) (G.counting groups.now) ledger.old.lines phi.now (stack.old.items ++ frame ∷ []) }
    requires kept { AreKept (G.system groups.now) (G.counting groups.now) ledger.old.lines phi.now kept.old.items }
    requires site { frame.site < length (callees (G.system groups.now) frame.group) }
    requires right { IsRightLine (G.system groups.now) (G.counting groups.now) ledger.old.lines (length ledger.old.lines + 1) line }
    requires new { IsNew ledger.old.lines line.group line.lits }
    requires group { line.group ≡ frame.group }
    requires said { WasSaid (G.system groups.now) (past frame) line.lits }
    ensures { IfOk result (SteppedIs (G.system groups.now) (G.counting groups.now) phi.now ledger.old ledger.new kept.new.items (stack.old.items ++ frame ∷ []) stack.new.items) }
{
    match tell(alloc, groups, ledger, kept, line)? {
        Some(next) => Ok(Step::Ended(Asked::Spent(next))),
        None => {
            frame.refuted = true;
            frame.site += 1;
            stack.push(frame)?;
            Ok(Step::On)
        }
    }
}

/// The mark of a frame for the first literal of a clause.
fn mark_for(frame: &Frame, lits: &[Lit]) -> Mark
    ensures { MarkIs frame.now.marks lits.now result }
{
    let marks = frame.marks.items.as_slice();
    if lits.is_empty() {
        return Mark::Missing;
    }
    let at = lits[0].var().number() as usize - 1;
    if at >= marks.len() {
        Mark::Missing
    } else if marks[at] {
        Mark::Set
    } else {
        Mark::Clear(at)
    }
}

/// Sets a mark.
fn set_mark(frame: &mut Frame, at: usize)
    requires { at < length frame.old.marks }
    ensures { frame.new ≡ frame_at frame.old frame.old.site frame.old.refuted (set frame.old.marks at true) }
{
    frame.marks.items[at] = true;
}

/// Carries a line of fields alone to a frame. The root goes on past its site, and is told one such line for each first field;
/// an instance is given up, since it was entered with these fields.
fn tell_fields<G: Groups>(
    alloc: Global,
    groups: &G,
    ledger: &mut Ledger,
    phi: &[bool],
    kept: &mut Vec<Entries>,
    stack: &mut Vec<Frame>,
    mut frame: Frame,
    line: Line,
) -> Result<Step, Memory>
    requires ledger { IsLedger (G.system groups.now) (G.counting groups.now) ledger.old }
    requires frames { AreFrames (G.system groups.now) (G.counting groups.now) ledger.old.lines phi.now (stack.old.items ++ frame ∷ []) }
    requires kept { AreKept (G.system groups.now) (G.counting groups.now) ledger.old.lines phi.now kept.old.items }
    requires site { frame.site < length (callees (G.system groups.now) frame.group) }
    requires said { IsSaidAt (G.system groups.now) (G.counting groups.now) ledger.old.lines frame.group frame.site frame.bits line }
    requires fields { All (λ (l : Literal). l.var ≤ (G.system groups.now).fields) line.lits }
    ensures { IfOk result (SteppedIs (G.system groups.now) (G.counting groups.now) phi.now ledger.old ledger.new kept.new.items (stack.old.items ++ frame ∷ []) stack.new.items) }
{
    local_lines_are_true();
    match mark_for(&frame, line.lits.lits()) {
        Mark::Missing => match tell(alloc, groups, ledger, kept, line)? {
            None => Ok(ended(stack, Asked::Carried)),
            Some(next) => Ok(Step::Ended(Asked::Spent(next))),
        },
        Mark::Clear(at) => {
            set_mark(&mut frame, at);
            go_past(alloc, groups, ledger, phi, kept, stack, frame, line)
        }
        Mark::Set => {
            frame.site += 1;
            stack.push(frame)?;
            Ok(Step::On)
        }
    }
}

/// The line at the site of a frame that says that what it asks for is not to be had.
fn said_to<G: Groups>(
    alloc: Global,
    groups: &G,
    ledger: &Ledger,
    n: u32,
    frame: &Frame,
) -> Result<Line, Memory>
    requires group { frame.now.group ≤ root (G.system groups.now) }
    requires site { frame.now.site < length (callees (G.system groups.now) frame.now.group) }
    requires denied { IsDenied ledger.now.lines (callee (G.system groups.now) frame.now.group frame.now.site).group (given_for (G.system groups.now) (phi_by (G.system groups.now) (bit_at frame.now.bits)) (callee (G.system groups.now) frame.now.group frame.now.site) (sigma_by (G.system groups.now) frame.now.group (bit_at frame.now.bits) frame.now.site)) n }
    ensures { IfOk result (IsSaidAt (G.system groups.now) (G.counting groups.now) ledger.now.lines frame.now.group frame.now.site frame.now.bits) }
{
    let bits = frame.bits.items.as_slice();
    said_at(alloc, groups, ledger, n, bits, frame.group, frame.site)
}

/// Carries a line that refutes what the site of a frame asks for to that site.
fn turn<G: Groups>(
    alloc: Global,
    groups: &G,
    ledger: &mut Ledger,
    n: u32,
    phi: &[bool],
    kept: &mut Vec<Entries>,
    stack: &mut Vec<Frame>,
    frame: Frame,
) -> Result<Step, Memory>
    requires ledger { IsLedger (G.system groups.now) (G.counting groups.now) ledger.old }
    requires frames { AreFrames (G.system groups.now) (G.counting groups.now) ledger.old.lines phi.now (stack.old.items ++ frame ∷ []) }
    requires kept { AreKept (G.system groups.now) (G.counting groups.now) ledger.old.lines phi.now kept.old.items }
    requires site { frame.site < length (callees (G.system groups.now) frame.group) }
    requires denied { IsDenied ledger.old.lines (callee (G.system groups.now) frame.group frame.site).group (given_for (G.system groups.now) (phi_by (G.system groups.now) (bit_at frame.bits)) (callee (G.system groups.now) frame.group frame.site) (sigma_by (G.system groups.now) frame.group (bit_at frame.bits) frame.site)) n }
    ensures { IfOk result (SteppedIs (G.system groups.now) (G.counting groups.now) phi.now ledger.old ledger.new kept.new.items (stack.old.items ++ frame ∷ []) stack.new.items) }
{
    local_lines_are_true();
    let line = said_to(alloc, groups, ledger, n, &frame)?;
    if is_of_fields(line.lits.lits(), groups.fields()) {
        tell_fields(alloc, groups, ledger, phi, kept, stack, frame, line)
    } else {
        go_past(alloc, groups, ledger, phi, kept, stack, frame, line)
    }
}

/// The literals under which what the site of a frame asks for is solved.
fn given_at<G: Groups>(
    alloc: Global,
    groups: &G,
    phi: &[bool],
    frame: &Frame,
) -> Result<Vec<Lit>, Memory>
    requires group { frame.now.group ≤ root (G.system groups.now) }
    requires site { frame.now.site < length (callees (G.system groups.now) frame.now.group) }
    requires size { length frame.now.bits ≡ count (G.system groups.now) frame.now.group }
    requires phi { length phi.now ≡ (G.system groups.now).fields }
    ensures literals { let c = callee (G.system groups.now) frame.now.group frame.now.site in
        IfOk result (λ v. v.items ≡ given_for (G.system groups.now) phi.now c (sigma_by (G.system groups.now) frame.now.group (bit_at frame.now.bits) frame.now.site)) }
    ensures given { IfOk result (λ v. IsGiven (G.system groups.now) (callee (G.system groups.now) frame.now.group frame.now.site).group v.items) }
{
    let callee = groups.callee(frame.group, frame.site);
    let bits = frame.bits.items.as_slice();
    let face = asked_face(groups, bits, frame.group, frame.site);
    given_for(alloc, groups, phi, callee, face)
}

/// Solves what the site of a frame asks for and goes down there; where there is none, says so to the frame. Below an instance to
/// which a line was carried it does not go down, since that one is solved anew.
fn enter<G: Groups>(
    alloc: Global,
    groups: &G,
    ledger: &mut Ledger,
    phi: &[bool],
    kept: &mut Vec<Entries>,
    stack: &mut Vec<Frame>,
    mut frame: Frame,
) -> Result<Step, Memory>
    requires ledger { IsLedger (G.system groups.now) (G.counting groups.now) ledger.old }
    requires frames { AreFrames (G.system groups.now) (G.counting groups.now) ledger.old.lines phi.now (stack.old.items ++ frame ∷ []) }
    requires kept { AreKept (G.system groups.now) (G.counting groups.now) ledger.old.lines phi.now kept.old.items }
    requires site { frame.site < length (callees (G.system groups.now) frame.group) }
    ensures { IfOk result (SteppedIs (G.system groups.now) (G.counting groups.now) phi.now ledger.old ledger.new kept.new.items (stack.old.items ++ frame ∷ []) stack.new.items) }
{
    let callee = groups.callee(frame.group, frame.site);
    let given = given_at(alloc, groups, phi, &frame)?;
    match groups.solve(alloc, ledger, callee.group, &given)? {
        Outcome::Sat(_) if frame.refuted && frame.group < groups.root() => {
            frame.site += 1;
            stack.push(frame)?;
            Ok(Step::On)
        }
        Outcome::Sat(bits) => {
            stack.push(frame)?;
            stack.push(entered(alloc, callee.group, bits))?;
            Ok(Step::On)
        }
        Outcome::Conflict(n) => turn(alloc, groups, ledger, n, phi, kept, stack, frame),
        Outcome::Spent(line) => Ok(Step::Ended(Asked::Spent(line))),
    }
}

/// The frame of an instance none of whose sites was gone past.
fn entered(alloc: Global, group: u32, bits: Bits) -> Frame
    ensures { result ≡ frame_of group bits [] }
{
    Frame {
        group,
        site: 0,
        bits,
        refuted: false,
        marks: Bits {
            items: Vec::new(alloc),
        },
    }
}

/// Goes on with a frame, which stands on the others: past its site, where what this asks for is kept, else down there. A frame
/// without a further site is left.
fn visit<G: Groups>(
    alloc: Global,
    groups: &G,
    ledger: &mut Ledger,
    phi: &[bool],
    kept: &mut Vec<Entries>,
    stack: &mut Vec<Frame>,
    mut frame: Frame,
) -> Result<Step, Memory>
    requires ledger { IsLedger (G.system groups.now) (G.counting groups.now) ledger.old }
    requires frames { AreFrames (G.system groups.now) (G.counting groups.now) ledger.old.lines phi.now (stack.old.items ++ frame ∷ []) }
    requires kept { AreKept (G.system groups.now) (G.counting groups.now) ledger.old.lines phi.now kept.old.items }
    ensures { IfOk result (SteppedIs (G.system groups.now) (G.counting groups.now) phi.now ledger.old ledger.new kept.new.items (stack.old.items ++ frame ∷ []) stack.new.items) }
{
    if frame.site >= groups.sites(frame.group) {
        return leave(groups, ledger, phi, kept, stack, frame);
    }
    if is_kept(groups, kept, &frame) {
        frame.site += 1;
        stack.push(frame)?;
        return Ok(Step::On);
    }
    enter(alloc, groups, ledger, phi, kept, stack, frame)
}

/// Goes down from the root's bits to what they ask for, and keeps what has all that it asks for in turn. Where a site asks for
/// what is not to be had, a line that says so is carried there, and the other sites of the one who asks are gone through before
/// it is solved anew; the root is not solved anew here.
pub fn descend<G: Groups>(
    alloc: Global,
    groups: &G,
    ledger: &mut Ledger,
    phi: &[bool],
    top: &[bool],
    kept: &mut Vec<Entries>,
) -> Result<Asked, Memory>
    requires ledger { IsLedger (G.system groups.now) (G.counting groups.now) ledger.old }
    requires kept { AreKept (G.system groups.now) (G.counting groups.now) ledger.old.lines phi.now kept.old.items }
    requires asker { IsAsker (G.system groups.now) (G.counting groups.now) ledger.old.lines phi.now (root (G.system groups.now)) top.now }
    ensures { IfOk result (DescendedIs (G.system groups.now) (G.counting groups.now) phi.now top.now ledger.old ledger.new kept.new.items) }
{
    let mut stack = first_frame(alloc, groups, top)?;
    while let Some(frame) = stack.pop() {
        match visit(alloc, groups, ledger, phi, kept, &mut stack, frame)? {
            Step::On => {}
            Step::Ended(answer) => return Ok(answer),
        }
    }
    Ok(Asked::Kept)
}
