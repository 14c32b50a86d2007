// Tests of whole calls: words, files and sinks.
//
// They call what `cp_driver` makes public, and nothing else; so that crate is proved once, without its tests.
//
// The tests have what no clause says: that the calls succeed where there is memory, which of two faults comes, and the
// real files. The expected values are worked by hand.
//
// `calls` makes a call over files and sinks in memory, and compares what it does with what is wanted. `words` has the
// words of the command line; `compiles` units that are compiled, and some that are not yet; `dumps` tokens and trees,
// and texts without; `faults` calls of the files and sinks that fail; `host` the files of the host.
#![tactic(auto)]

#[cfg(test)]
mod calls;
#[cfg(test)]
mod compiles;
#[cfg(test)]
mod dumps;
#[cfg(test)]
mod faults;
#[cfg(test)]
mod host;
#[cfg(test)]
mod words;
