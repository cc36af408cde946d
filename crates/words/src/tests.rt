use crate::reading::read_words;
use crate::request::{Request, WordsError};
use std::alloc::Global;
use std::test::Fail;

// Words, with spaces between, and what they ask for: the name of a class or `-`, the folder, and the scripts.
static ASKED: [(&str, &str); 14] = [
    ("dir a", "- dir a"),
    ("dir a b", "- dir a b"),
    ("--main One dir a", "One dir a"),
    ("--main=One dir a", "One dir a"),
    ("--main p.q.One dir a", "p/q/One dir a"),
    ("--main p/One dir a", "p/One dir a"),
    ("dir --main One a b", "One dir a b"),
    ("dir a b --main One", "One dir a b"),
    ("dir dir", "- dir dir"),
    ("dir dir.out", "- dir dir.out"),
    ("dir a a.out.out", "- dir a a.out.out"),
    ("dir a aout", "- dir a aout"),
    ("-- --main a", "- --main a"),
    ("dir -- a --help", "- dir a --help"),
];

// Words that ask for nothing that can be served.
static USAGE: [&str; 18] = [
    "",
    "dir",
    "--main One dir",
    "--help",
    "-h",
    "dir a --help",
    "--version dir a",
    "--other dir a",
    "-m One dir a",
    "--mai One dir a",
    "dir a --main",
    "--main One --main Two dir a",
    "--main One --main One dir a",
    "dir a a",
    "dir a b a",
    "dir a a.out",
    "dir a.out b a",
    "dir a.out a.out.out",
];

fn words_of(alloc: Global, line: &str) -> Result<Vec<String>, Fail> {
    let mut words = Vec::new(alloc);
    if line.is_empty() {
        return Ok(words);
    }
    for word in line.split(' ') {
        words.push(String::from_str(alloc, word)?)?;
    }
    Ok(words)
}

fn shown(alloc: Global, request: &Request) -> Result<String, Fail> {
    let mut text = String::new(alloc);
    match &request.main {
        Some(name) => text.push_str(str::from_utf8(name.bytes()).unwrap_or("?"))?,
        None => text.push_str("-")?,
    }
    text.push_str(" ")?;
    text.push_str(request.folder.as_str())?;
    for script in request.scripts.items() {
        text.push_str(" ")?;
        text.push_str(script.as_str())?;
    }
    Ok(text)
}

fn told(alloc: Global, line: &str) -> Result<String, Fail> {
    let words = words_of(alloc, line)?;
    match read_words(alloc, words.as_slice()) {
        Ok(request) => shown(alloc, &request),
        Err(WordsError::Usage) => Ok(String::from_str(alloc, "usage")?),
        Err(WordsError::NoMemory) => Ok(String::from_str(alloc, "no memory")?),
    }
}

// A folder and so many scripts.
fn many(alloc: Global, count: u32) -> Result<String, Fail> {
    let mut line = String::from_str(alloc, "dir")?;
    for k in 0..count {
        let number = k.to_string(alloc)?;
        line.push_str(" s")?;
        line.push_str(number.as_str())?;
    }
    Ok(line)
}

#[test]
fn words_that_ask(rt: HostRuntime) -> Result<(), Fail> {
    for (line, want) in &ASKED {
        let found = told(rt.alloc(), line)?;
        assert_eq!(rt; found.as_str(), *want, "at {line}");
    }
    Ok(())
}

#[test]
fn words_that_do_not(rt: HostRuntime) -> Result<(), Fail> {
    for line in &USAGE {
        let found = told(rt.alloc(), line)?;
        assert_eq!(rt; found.as_str(), "usage", "at {line}");
    }
    Ok(())
}

#[test]
fn at_most_sixty_four_scripts(rt: HostRuntime) -> Result<(), Fail> {
    let most = many(rt.alloc(), 64)?;
    assert!(rt; told(rt.alloc(), most.as_str())?.ends_with(" s63"));
    let over = many(rt.alloc(), 65)?;
    let found = told(rt.alloc(), over.as_str())?;
    assert_eq!(rt; found.as_str(), "usage");
    Ok(())
}
