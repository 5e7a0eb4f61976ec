//! A book behind a turnstile, in which several threads write.
ghost use Rattle.std.specs.Prelude.{◌≡◌, ◌<◌, ◌≤◌, ◌-◌, ◌++◌, ℕ, List, [], ◌∷◌, IfOk, IfSome, IsTrue, refl};
ghost use Rattle.turnstile.specs.Entries.{up_to};
ghost use Rattle.a1_base.specs.Lists.{IsAmong, entries_of};
ghost use Rattle.turnstile.specs.Book.{Mark, HasEach, HasWritten, HaveWritten, told, writer};
ghost use Rattle.turnstile.specs.Passes.{IsPassOf, numbers, seen};

use crate::{Keeps, Pass, Tells, Turnstile};
use a1_base::Memory;
use std::alloc::Global;
use std::sync::Wait;
use std::thread::{Threads, join};

/// The marks of all writers, in the order of their turns.
#[derive(Drop)]
pub struct Book {
    marks: Vec<(u32, u64)>,
}

impl Keeps for Book {
    type Entry = (u32, u64);

    ghost first = { λ book. (0, 0) };

    ghost number = { writer };

    ghost stands = { λ book log. log ≡ (0, 0) ∷ book.marks.items };

    ghost first_is = { λ book. refl };
}

/// The mark that a turn wrote, if there was room.
#[derive(Drop)]
struct Written {
    mark: Option<(u32, u64)>,
}

impl Tells<(u32, u64)> for Written {
    ghost entries = { λ w. told w.mark };

    fn count(&self) -> u64 {
        match self.mark {
            Some(_) => 1,
            None => 0,
        }
    }
}

// One turn, and whether its mark was written.
fn write<R: Wait>(
    rt: &R,
    lock: &Turnstile<Book>,
    pass: Pass<Book>,
    by: u32,
    nth: u64,
) -> (Pass<Book>, bool)
    requires pass { IsPassOf lock.now pass }
    requires mine { IsAmong by (numbers pass) }
    ensures pass { IsPassOf lock.now result.0 }
    ensures numbers { numbers result.0 ≡ numbers pass }
    ensures written { IsTrue result.1 → entries_of writer by (seen result.0)
        ≡ entries_of writer by (seen pass) ++ (by, nth) ∷ [] }
{
    let mut turn = lock.enter(rt, pass);
    let mark = match turn.value().marks.push((by, nth)) {
        Ok(()) => Some((by, nth)),
        Err(_) => None,
    };
    let turn = lock.note(turn, &Written { mark });
    (lock.leave(turn), mark.is_some())
}

// Many turns of one writer, and whether all its marks were written.
fn write_all<R: Wait>(
    rt: &R,
    lock: &Turnstile<Book>,
    mut pass: Pass<Book>,
    by: u32,
    times: u64,
) -> (Pass<Book>, bool)
    requires pass { IsPassOf lock.now pass }
    requires mine { IsAmong by (numbers pass) }
    ensures pass { IsPassOf lock.now result.0 }
    ensures numbers { numbers result.0 ≡ numbers pass }
    ensures written { IsTrue result.1 → HasWritten by times (seen pass) (seen result.0) }
{
    for nth in 0..times {
        let (left, written) = write(rt, lock, pass, by, nth);
        pass = left;
        if !written {
            return (pass, false);
        }
    }
    (pass, true)
}

// The pass of the last writer, and that of the others.
fn part(lock: &Turnstile<Book>, pass: Pass<Book>, writers: u32) -> (Pass<Book>, Pass<Book>)
    requires pass { IsPassOf lock.now pass }
    requires two { 1 < writers }
    requires all { numbers pass ≡ up_to writers }
    ensures passes { IsPassOf lock.now result.0 × IsPassOf lock.now result.1 }
    ensures numbers { (numbers result.0 ≡ writers ∷ []) × (numbers result.1 ≡ up_to (writers - 1)) }
    ensures seen { (seen result.0 ≡ seen pass) × (seen result.1 ≡ seen pass) }
{
    lock.split(pass, writers)
}

// The pass of all writers again.
fn gather(lock: &Turnstile<Book>, own: Pass<Book>, others: Pass<Book>, writers: u32) -> Pass<Book>
    requires passes { IsPassOf lock.now own × IsPassOf lock.now others }
    requires some { 0 < writers }
    requires numbers { (numbers own ≡ writers ∷ []) × (numbers others ≡ up_to (writers - 1)) }
    ensures pass { IsPassOf lock.now result }
    ensures numbers { numbers result ≡ up_to writers }
    ensures written { (before : List Mark) (n : ℕ) → HasWritten writers n before (seen own)
        → HaveWritten (writers - 1) n before (seen others) → HaveWritten writers n before (seen result) }
{
    lock.join(own, others)
}

// Each of the writers from 1 on has a thread of its own.
fn write_by_each<R: Threads + Wait + Sync>(
    rt: &R,
    lock: &Turnstile<Book>,
    pass: Pass<Book>,
    writers: u32,
    times: u64,
) -> (Pass<Book>, bool)
    requires pass { IsPassOf lock.now pass }
    requires some { 0 < writers }
    requires all { numbers pass ≡ up_to writers }
    ensures pass { IsPassOf lock.now result.0 }
    ensures numbers { numbers result.0 ≡ up_to writers }
    ensures written { IsTrue result.1 → HaveWritten writers times (seen pass) (seen result.0) }
{
    if writers == 1 {
        return write_all(rt, lock, pass, 1, times);
    }
    let (own, others) = part(lock, pass, writers);
    let ((own, wrote), (others, all_wrote)) = join(
        rt,
        || -> (Pass<Book>, bool)
            requires { IsPassOf lock.now own × (numbers own ≡ writers ∷ []) }
            ensures { IsPassOf lock.entry.now result.0 × (numbers result.0 ≡ writers ∷ [])
                × (IsTrue result.1 → HasWritten writers times (seen own) (seen result.0)) }
        { write_all(rt, lock, own, writers, times) },
        || -> (Pass<Book>, bool)
            requires { IsPassOf lock.now others × (numbers others ≡ up_to (writers - 1)) × (1 < writers) }
            ensures { IsPassOf lock.entry.now result.0 × (numbers result.0 ≡ up_to (writers - 1))
                × (IsTrue result.1 → HaveWritten (writers - 1) times (seen others) (seen result.0)) }
        { write_by_each(rt, lock, others, writers - 1, times) },
    );
    (gather(lock, own, others, writers), wrote && all_wrote)
}

/// The marks of so many writers with a thread each, in the order of their turns. None where there was no room for all.
pub fn written_by<R: Threads + Wait + Sync>(
    rt: &R,
    alloc: Global,
    writers: u32,
    times: u64,
) -> Result<Option<Vec<(u32, u64)>>, Memory>
    requires { 0 < writers }
    ensures { IfOk result (λ r. IfSome r (λ marks. HasEach writers times marks.items)) }
{
    let book = Book {
        marks: Vec::new(alloc),
    };
    let (lock, pass) = match Turnstile::new(alloc, book, writers) {
        Ok(made) => made,
        Err((_, memory)) => return Err(memory),
    };
    let (pass, all_wrote) = write_by_each(rt, &lock, pass, writers, times);
    let Book { marks } = lock.close(pass);
    Ok(if all_wrote { Some(marks) } else { None })
}

/// The marks of two passes that take turns in one thread.
pub fn written_in_one_thread<R: Wait>(rt: &R, alloc: Global) -> Result<Vec<(u32, u64)>, Memory> {
    let book = Book {
        marks: Vec::new(alloc),
    };
    let (lock, pass) = match Turnstile::new(alloc, book, 2) {
        Ok(made) => made,
        Err((_, memory)) => return Err(memory),
    };
    let (second, first) = lock.split(pass, 2);
    let (second, _) = write(rt, &lock, second, 2, 0);
    let (first, _) = write(rt, &lock, first, 1, 0);
    let (second, _) = write(rt, &lock, second, 2, 1);
    let pass = lock.join(first, second);
    let Book { marks } = lock.close(pass);
    Ok(marks)
}
