// Measures the planner: reads book.txt and panels.txt, and how many rounds on standard input; prunes a fresh copy of each panel and
// quotes the panel, so many times each. Prints the results on standard output, and on standard error the nanoseconds of the quickest
// prune of each panel, together, and of the quickest quote.
#![tactic(auto)]

mod measuring;
mod panels;

use crate::measuring::{Boards, Measures};
use crate::panels::first_panel;
use anyhow::bail;
use order::Limit;
use scale::{Grade, Time, TimeGrade};
use std::fs;
use std::io::{Read, Write};
use text::{first_line, number};

// The bytes of a file; one that cannot be read counts as empty.
fn text_of(rt: &HostRuntime, path: &str) -> Vec<u8> {
    fs::read(rt, path).unwrap_or(Vec::new(rt.alloc()))
}

// How many rounds a text says, in one line: one or more.
fn rounds_of(text: &[u8]) -> Option<u32> {
    let (line, _) = first_line(text)?;
    number(line).filter(|rounds| *rounds > 0)
}

fn main(rt: HostRuntime) -> anyhow::Result<()> {
    let heap = rt.alloc();
    let book = text_of(&rt, "book.txt");
    let panels = text_of(&rt, "panels.txt");
    let mut rounds = Vec::new(heap);
    rt.stdin().read_to_end(&mut rounds)?;
    let Some(rounds) = rounds_of(&rounds) else {
        bail!("no number of rounds")
    };
    let Ok(book) = book::read(&book) else {
        bail!("the book is refused")
    };
    let mut times = Boards::<Time>::new(heap)?;
    let mut grades = Boards::<Grade>::new(heap)?;
    let mut pairs = Boards::<TimeGrade>::new(heap)?;
    let mut measures = Measures::new(heap, rounds);
    let mut rest = panels.as_slice();
    // A panel has some bytes, so there are no more panels than bytes.
    for _ in 0..panels.len() {
        let Some((panel, after)) = first_panel(rest) else {
            break;
        };
        match panel.limit {
            Limit::Time(time) => {
                measures.take(&rt, &book, panel.rows, Time::new(time), &mut times)?;
            }
            Limit::Grade(grade) => {
                measures.take(&rt, &book, panel.rows, Grade::new(grade), &mut grades)?;
            }
            Limit::Both { time, grade } => {
                let limit = TimeGrade::new(time, grade);
                measures.take(&rt, &book, panel.rows, limit, &mut pairs)?;
            }
        }
        rest = after;
    }
    rt.stdout().write_all(measures.said())?;
    let prune = measures.prune_nanos();
    let quote = measures.quote_nanos();
    eprintln!(rt; "prune {prune}\nquote {quote}")?;
    if !rest.is_empty() {
        bail!("a panel is refused")
    }
    Ok(())
}
