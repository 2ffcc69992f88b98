//! Lines of the program for which memory lacks.

use h26x_core::PacketError;
use h26x_lines::answers::Answers;
use h26x_lines::{RunError, run};
use std::alloc::Global;
use std::process::Abort;
use std::test::Fail;

const REFUSED: &[u8] = b"refused OutOfMemory\n";

/// Lines, and what each is answered. No answer hangs on whether an earlier line was refused.
struct Session {
    input: &'static [u8],
    answers: &'static [&'static [u8]],
}

const OF_H264: Session = Session {
    input: b"pack 100 6701\nunpack 7c8501\npack 100 6503\nunpack 6101\ncarry 100 6103\nhello",
    answers: &[
        b"done\n",
        b"out -\n",
        b"packet 6503\ndone\n",
        b"out 000000016101\n",
        b"packet 6103\nout 000000016103\n",
        b"bad line\n",
    ],
};

const OF_H265: Session = Session {
    input: b"codec h265\ndonl on\ndonl off\nsize 4\ncarry 5000 0201aabb\npack 5000 2601aabbcc",
    answers: &[
        b"ok\n",
        b"ok\n",
        b"ok\n",
        b"ok\n",
        b"packet 0201aabb\nout 000000010201aabb\n",
        b"packet 620193aa\npacket 620113bb\npacket 620153cc\ndone\n",
    ],
};

/// The answers on a page that was all zeros.
fn written(page: &[u8]) -> &[u8] {
    page.split(|byte| *byte == 0).next().unwrap_or(page)
}

/// Whether the answers are those of the lines, but that one call may be refused, or the run may
/// end for want of memory.
fn are_answers(session: &Session, mut rest: &[u8], ended: Result<(), RunError>) -> bool {
    let mut was_refused = false;
    for want in session.answers {
        if let Some(behind) = rest.strip_prefix(*want) {
            rest = behind;
            continue;
        }
        match rest.strip_prefix(REFUSED) {
            Some(behind) if !was_refused => rest = behind,
            _ => {
                return !was_refused
                    && ended == Err(RunError::OutOfMemory)
                    && want.starts_with(rest);
            }
        }
        was_refused = true;
    }
    rest.is_empty() && ended == Ok(())
}

/// Runs the lines; a call is refused, or the run ends.
fn run_on(rt: &impl Abort, alloc: Global, session: &Session) {
    let mut page = [0; 300];
    let ended = run(alloc, session.input, page.as_mut_slice());
    assert!(rt; are_answers(session, written(&page), ended), "{ended:?}");
}

#[test]
fn a_run_of_h264_ends_or_goes_on(rt: HostRuntime) {
    run_on(&rt, rt.alloc(), &OF_H264);
}

#[test]
fn a_run_of_h265_ends_or_goes_on(rt: HostRuntime) {
    run_on(&rt, rt.alloc(), &OF_H265);
}

/// Runs the lines; each is answered.
fn run_through(rt: &impl Abort, alloc: Global, session: &Session) -> Result<(), Fail> {
    let mut page = [0; 300];
    run(alloc, session.input, page.as_mut_slice())?;
    let mut rest = written(&page);
    for want in session.answers {
        rest = rest.strip_prefix(*want).ok_or("another answer")?;
    }
    assert!(rt; rest.is_empty());
    Ok(())
}

#[test]
fn a_run_of_h264_at_once(rt: HostRuntime) -> Result<(), Fail> {
    run_through(&rt, rt.alloc(), &OF_H264)
}

#[test]
fn a_run_of_h265_at_once(rt: HostRuntime) -> Result<(), Fail> {
    run_through(&rt, rt.alloc(), &OF_H265)
}

/// Answers take no memory but for their buffer, so a refused call is always answered.
#[test]
fn answers_without_memory(rt: HostRuntime) -> Result<(), Fail> {
    let mut page = [0; 10_000];
    let Ok(mut answers) = Answers::new(rt.alloc(), page.as_mut_slice()) else {
        return Ok(());
    };
    for error in [
        PacketError::OutOfMemory,
        PacketError::NaluTypeIsNotHandled(31),
        PacketError::StapASizeLargerThanBuffer(15, 14),
    ] {
        answers.say_unpacked(Err(error), &[])?;
    }
    answers.say_unpacked(Ok(()), &[0x65; 4800])?;
    answers.flush()?;
    Ok(())
}
