//! Runs the whole program once for each line of the file `runs`, on the words of the line, and prints the words, what the run says,
//! its status and its outputs. The folders and scripts stand beside that file.
#![tactic(auto)]

use real_host::host::RealHost;
use slicer_service::run;
use std::thread::Threads;
use std::{fs, io};

fn words_of(rt: &HostRuntime, line: &str) -> io::Result<Vec<String>> {
    let mut words = Vec::new(rt.alloc());
    for word in line.split_whitespace() {
        words.push(String::from_str(rt.alloc(), word)?)?;
    }
    Ok(words)
}

// The file that a script's replies go to, where there is one. It is then taken away, so that no later run shows it.
fn show_output(rt: &HostRuntime, word: &str) -> io::Result<()> {
    let path = format!(in rt.alloc(); "{word}.out")?;
    let Ok(bytes) = fs::read(rt, path.as_str()) else {
        return Ok(());
    };
    println!(rt; "{path}")?;
    rt.write_all(bytes.as_slice())?;
    fs::remove_file(rt, path.as_str())
}

fn show_run<R: Threads + Sync>(threads: &R, rt: &HostRuntime, line: &str) -> io::Result<()> {
    let words = words_of(rt, line)?;
    println!(rt; "slicer {line}")?;
    let mut host = RealHost::new(rt);
    let status = run(threads, rt.alloc(), words.as_slice(), &mut host);
    println!(rt; "status {status}")?;
    for word in &words {
        show_output(rt, word.as_str())?;
    }
    println!(rt; "")
}

fn main(rt: HostRuntime) -> io::Result<()> {
    // A folder without files, which a repository can't hold.
    fs::create_dir_all(&rt, "no_files")?;
    let runs = fs::read_to_string(&rt, "runs")?;
    for line in runs.as_str().lines() {
        show_run(&rt, &rt, line)?;
    }
    Ok(())
}
