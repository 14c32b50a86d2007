// A whole call over the files of the host.
use crate::calls::names;
use crate::compiles::{HI, HI_TEXT};
use cp_base::{Names, StdFiles, StdSink};
use cp_driver::cparser;
use std::fs::File;
use std::path::PathBuf;
use std::{env, fs, io};

// Files of the folder for temporary files.
static FILE: &str = "gakorunge-hi.c";

static OUTPUT: &str = "gakorunge-hi.s";

static ERROR: &str = "gakorunge-hi.err";

// The path of such a file.
fn temporary(rt: &HostRuntime, name: &str) -> io::Result<PathBuf> {
    let folder = env::temp_dir(rt)?;
    Ok(folder.join(rt.alloc(), name)?)
}

fn created(rt: &HostRuntime, name: &str) -> io::Result<File> {
    fs::create(rt, temporary(rt, name)?)
}

fn is_written(rt: &HostRuntime, name: &str, text: &str) -> bool {
    matches!(temporary(rt, name), Ok(path) if fs::write(rt, &path, text).is_ok())
}

fn has_text(rt: &HostRuntime, name: &str, text: &str) -> bool {
    let Ok(path) = temporary(rt, name) else {
        return false;
    };
    matches!(fs::read(rt, path), Ok(found) if found.as_slice() == text.as_bytes())
}

fn is_removed(rt: &HostRuntime, name: &str) -> bool {
    matches!(temporary(rt, name), Ok(path) if fs::remove_file(rt, &path).is_ok())
}

// The status of a call with these sinks.
fn status_of(rt: &HostRuntime, words: &Names, out: File, err: File) -> u8 {
    let mut files = StdFiles::new(rt);
    let mut out = StdSink::new(out);
    let mut err = StdSink::new(err);
    cparser(rt.alloc(), words, &mut files, &mut out, &mut err).status
}

// The words of a call that compiles the file.
fn words(rt: &HostRuntime, name: &str) -> io::Result<Names> {
    let path = temporary(rt, name)?;
    Ok(names(rt.alloc(), &["cparser", path.to_str().unwrap_or("")])?)
}

// The status of the call that compiles the one file to the next.
fn compile(rt: &HostRuntime) -> io::Result<u8> {
    let words = words(rt, FILE)?;
    let out = created(rt, OUTPUT)?;
    let err = created(rt, ERROR)?;
    Ok(status_of(rt, &words, out, err))
}

#[test]
fn files_of_the_host(rt: HostRuntime) {
    assert!(rt; is_written(&rt, FILE, HI));
    assert!(rt; matches!(compile(&rt), Ok(0)));
    assert!(rt; has_text(&rt, OUTPUT, HI_TEXT) && has_text(&rt, ERROR, ""));
    assert!(rt; is_removed(&rt, FILE) && is_removed(&rt, OUTPUT) && is_removed(&rt, ERROR));
}
