// Build: a copy of the nodes on the way to each piece, in fresh blocks, piece by piece on a working root.
ghost use Rattle.std.specs.Prelude.{◌≡◌, ◌+◌, ◌<◌, ◌≤◌};
ghost use Rattle.routes.specs.declared.update.build.Build.TheVariants.{Read as AtRead, Edit as AtEdit, Write as AtWrite};
ghost use Rattle.routes.specs.Machine.Builds.{BuildOk, BuildReady, BuildMoved, build_after, build_words, starting as starting_of, after_read, after_edit, after_write};

use super::check::prefix_at;
use super::job::Job;
use super::publish::Publish;
use super::{Phase, UpdateNext};
use crate::Memory;
use crate::access::{load, store};
use crate::header::{HEADER, ROOT};
use own::{OwnWords, edit_piece, fresh_at, image_at, image_word, note_path, note_word};
use std::ops::ControlFlow::Continue;
use words::{block_of, nib};

// Its registers are plain numbers, handed on one by one, whose ranges are in BuildOk: with a type for a range, the machine's definition would have to prove it in every state.
#[derive(Clone, Copy)]
pub enum Build {
    Root,
    // word by word, the nodes on the way to piece k as far as they exist
    Read {
        k: u32,
        level: u8,
        word: u32,
        node: u32,
    },
    // in the own words alone: the images of the nodes on the way, of which so many were read
    Edit {
        k: u32,
        have: u8,
    },
    // word by word, the images that remain, to the fresh blocks from number first on
    Write {
        k: u32,
        first: u32,
        level: u8,
        word: u32,
    },
}

// Piece k is next: if there is no root, there is nothing to read.
fn starting(job: Job, k: u32) -> UpdateNext
    ensures { result ≡ starting_of job k }
{
    if job.root == 0 {
        Continue((job, Phase::Build(Build::Edit { k, have: 0 })))
    } else {
        Continue((
            job,
            Phase::Build(Build::Read {
                k,
                level: 0,
                word: 0,
                node: job.root,
            }),
        ))
    }
}

// After a word of a node: the next word, the next node on the way, or the edit where the way ends.
fn after_read(job: Job, k: u32, level: u8, word: u32, node: u32, deep: u8, child: u32) -> UpdateNext
    requires { (level ≤ 8) × (word < 31) }
    ensures { result ≡ after_read job k level word node deep child }
{
    if word < 30 {
        Continue((
            job,
            Phase::Build(Build::Read {
                k,
                level,
                word: word + 1,
                node,
            }),
        ))
    } else if level == deep || child == 0 {
        Continue((job, Phase::Build(Build::Edit { k, have: level + 1 })))
    } else {
        Continue((
            job,
            Phase::Build(Build::Read {
                k,
                level: level + 1,
                word: 0,
                node: child,
            }),
        ))
    }
}

fn read<M: Memory>(
    job: Job,
    k: u32,
    level: u8,
    word: u32,
    node: u32,
    w: &mut M,
    p: u32,
    own: &mut OwnWords,
) -> UpdateNext
    requires ready { BuildReady (M.mem w.old) p job (AtRead k level word node) own.old }
    ensures moved { BuildMoved p job (AtRead k level word node) (M.mem w.old) own.old result (M.mem w.new) own.new }
    ensures unseen { M.seen w.new ≡ M.seen w.old }
{
    let prefix = prefix_at(own, k);
    let x = load(w, p, node, word);
    note_word(own, level, word, x);
    note_path(own, job.retired, level, node);
    let child = block_of(own[image_at(level, nib(level, prefix.bits))]);
    after_read(job, k, level, word, node, prefix.len / 4, child)
}

// The images are edited: the working tree has the remaining levels in fresh blocks, and the blocks that were read are replaced.
fn after_edit(job: Job, k: u32, have: u8, levels: u32, root: u32) -> UpdateNext
    requires { (job.retired ≤ 72) × ((have ≤ 9) × ((job.used ≤ 72) × (levels ≤ 9))) }
    ensures { result ≡ after_edit job k have levels root }
{
    let first = job.used;
    let job = Job {
        used: first + levels,
        retired: job.retired + u32::from(have),
        root,
        ..job
    };
    Continue((
        job,
        Phase::Build(Build::Write {
            k,
            first,
            level: 0,
            word: 0,
        }),
    ))
}

fn edit(job: Job, k: u32, have: u8, own: &mut OwnWords) -> UpdateNext
    requires { BuildOk job (AtEdit k have) own.old }
    ensures next { result ≡ build_after job (AtEdit k have) own.old 0 }
    ensures words { own.new ≡ build_words job (AtEdit k have) own.old 0 }
{
    let root = fresh_at(own, job.used);
    let levels = edit_piece(own, k, have, job.used);
    after_edit(job, k, have, levels, root)
}

// After a word of an image: the next word, the next level, the next piece, or all is built.
fn after_write(job: Job, k: u32, first: u32, level: u8, word: u32) -> UpdateNext
    requires { (level ≤ 8) × ((word < 31) × ((first ≤ 72) × (k < 8))) }
    ensures { result ≡ after_write job k first level word }
{
    if word < 30 {
        Continue((
            job,
            Phase::Build(Build::Write {
                k,
                first,
                level,
                word: word + 1,
            }),
        ))
    } else if first + u32::from(level) + 1 < job.used {
        Continue((
            job,
            Phase::Build(Build::Write {
                k,
                first,
                level: level + 1,
                word: 0,
            }),
        ))
    } else if k + 1 < job.size {
        starting(job, k + 1)
    } else {
        Continue((job, Phase::Publish(Publish::FenceNodes)))
    }
}

fn write<M: Memory>(
    job: Job,
    k: u32,
    first: u32,
    level: u8,
    word: u32,
    w: &mut M,
    p: u32,
    own: &mut OwnWords,
) -> UpdateNext
    requires ready { BuildReady (M.mem w.old) p job (AtWrite k first level word) own.old }
    ensures moved { BuildMoved p job (AtWrite k first level word) (M.mem w.old) own.old result (M.mem w.new) own.new }
    ensures unseen { M.seen w.new ≡ M.seen w.old }
{
    store(
        w,
        p,
        fresh_at(own, first + u32::from(level)),
        word,
        image_word(own, level, word),
    );
    after_write(job, k, first, level, word)
}

pub fn step_build<M: Memory>(
    job: Job,
    s: Build,
    w: &mut M,
    p: u32,
    own: &mut OwnWords,
) -> UpdateNext
    requires ready { BuildReady (M.mem w.old) p job s own.old }
    ensures moved { BuildMoved p job s (M.mem w.old) own.old result (M.mem w.new) own.new }
    ensures unseen { M.seen w.new ≡ M.seen w.old }
{
    match s {
        Build::Root => {
            let root = block_of(load(w, p, HEADER, ROOT));
            starting(Job { root, ..job }, 0)
        }
        Build::Read {
            k,
            level,
            word,
            node,
        } => read(job, k, level, word, node, w, p, own),
        Build::Edit { k, have } => edit(job, k, have, own),
        Build::Write {
            k,
            first,
            level,
            word,
        } => write(job, k, first, level, word, w, p, own),
    }
}
