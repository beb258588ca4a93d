// A script as cases.
use crate::hex;
use anyhow::{Context, anyhow};
use std::alloc::Global;

// A call of a station, with a frame as the bytes of its readings: `Call` of `station` lends readings, and bytes may be none.
#[derive(Drop)]
pub(crate) enum Step {
    Feed(Vec<u8>),
    Gap,
    Look(usize),
    Recheck(usize),
    Back { q: usize, head: usize },
}

// A sheet file, and the calls of the station that is made of it.
#[derive(Drop)]
pub(crate) struct Case {
    pub(crate) sheet: Vec<u8>,
    pub(crate) steps: Vec<Step>,
}

// A line of a script.
#[derive(Drop)]
enum Line {
    Sheet(Vec<u8>),
    Call(Step),
}

// The two numbers of a look-back.
fn parse_back(numbers: &str) -> anyhow::Result<Step> {
    let (q, head) = numbers
        .split_once(' ')
        .context("a look-back has two numbers")?;
    Ok(Step::Back {
        q: q.parse()?,
        head: head.parse()?,
    })
}

fn parse_line(heap: Global, text: &str) -> anyhow::Result<Line> {
    let (word, rest) = text.split_once(' ').unwrap_or((text, ""));
    match word {
        "sheet" => Ok(Line::Sheet(hex::bytes(heap, rest)?)),
        "feed" => Ok(Line::Call(Step::Feed(hex::bytes(heap, rest)?))),
        "gap" => Ok(Line::Call(Step::Gap)),
        "look" => Ok(Line::Call(Step::Look(rest.parse()?))),
        "recheck" => Ok(Line::Call(Step::Recheck(rest.parse()?))),
        "back" => Ok(Line::Call(parse_back(rest)?)),
        _ => Err(anyhow!("a line begins with no known word")),
    }
}

// The cases of a script.
pub(crate) fn cases(heap: Global, script: &str) -> anyhow::Result<Vec<Case>> {
    let mut cases: Vec<Case> = Vec::new(heap);
    for text in script.lines() {
        match parse_line(heap, text)? {
            Line::Sheet(sheet) => {
                let steps = Vec::new(heap);
                cases.push(Case { sheet, steps })?;
            }
            Line::Call(step) => {
                let case = cases
                    .last_mut()
                    .context("a call stands before the first sheet")?;
                case.steps.push(step)?;
            }
        }
    }
    Ok(cases)
}
