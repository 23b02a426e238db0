//! The bench: reads an errand text from the file that is named, or from standard input, and prints whether there is a way and what it read,
//! or by which number and at which line it refuses.
#![tactic(auto)]

mod said;

use book::{Book, Errand};
use booktext::read_errand;
use format::TextRefusal;
use panel::Panel;
use panel::register::Register;
use planner::judge;
use rules::Refusal;
use said::{Items, name};
use std::io::Read;
use std::{env, fs};
use theory::Judgement;

fn main(rt: HostRuntime) -> anyhow::Result<()> {
    run(&rt)
}

fn run(rt: &HostRuntime) -> anyhow::Result<()> {
    let text = input(rt)?;
    match read_errand(&text) {
        Ok(errand) => print_errand(rt, &errand),
        Err(refusal) => print_refusal(rt, refusal),
    }
}

/// The bytes of the file that is named, or of standard input if none is.
fn input(rt: &HostRuntime) -> anyhow::Result<Vec<u8>> {
    if let Some(path) = env::args(rt)?.nth(1) {
        return Ok(fs::read(rt, path.as_str())?);
    }
    let mut text = Vec::new(rt.alloc());
    rt.stdin().read_to_end(&mut text)?;
    Ok(text)
}

/// Prints whether there is a way, and what the errand says: each latch with its position at the start, each move, and what is wanted.
fn print_errand(rt: &HostRuntime, errand: &Errand) -> anyhow::Result<()> {
    let (answer, refusal) = match judge(errand) {
        Judgement::Way => ("way", None),
        Judgement::Outside => ("outside", Some(Refusal::Outside)),
        Judgement::NoWay => ("noway", Some(Refusal::NoWay)),
    };
    print_answer(rt, answer, refusal.map_or(0, |r| r.number()), 0)?;
    print_latches(rt, errand)?;
    print_moves(rt, &errand.book)?;
    let want = Items {
        book: &errand.book,
        asked: errand.want,
    };
    println!(rt; "want={want}")?;
    Ok(())
}

/// Prints each latch with its position at the start, as a register panel that is made from it shows it.
fn print_latches(rt: &HostRuntime, errand: &Errand) -> anyhow::Result<()> {
    let latches = errand.book.latches;
    let start = Register::new(latches, u32::from(errand.start));
    println!(rt; "latches={latches}")?;
    for latch in 0..start.width() {
        let name = name(&errand.book, latch);
        if let Some(at) = start.look(latch) {
            println!(rt; "latch={name}:{at}")?;
        }
    }
    Ok(())
}

/// Prints each move: its number, its latch with the position that it throws it to, and what it asks.
fn print_moves(rt: &HostRuntime, book: &Book) -> anyhow::Result<()> {
    println!(rt; "moves={}", book.count)?;
    for (i, m) in book.moves().iter().enumerate() {
        let name = name(book, m.latch);
        let to = u8::from(m.to);
        let when = Items {
            book,
            asked: m.when,
        };
        println!(rt; "move={i} {name}:{to} when={when}")?;
    }
    Ok(())
}

/// Prints the number of a refusal and its line.
fn print_refusal(rt: &HostRuntime, refusal: TextRefusal) -> anyhow::Result<()> {
    print_answer(rt, "refused", refusal.fault.number(), refusal.line)
}

/// Prints the answer, the number of the refusal and its line, which are 0 where there is none.
fn print_answer(rt: &HostRuntime, answer: &str, refusal: u8, line: u32) -> anyhow::Result<()> {
    println!(rt; "answer={answer}")?;
    println!(rt; "refusal={refusal}")?;
    println!(rt; "line={line}")?;
    Ok(())
}
