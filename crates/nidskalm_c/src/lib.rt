// The C interface, as include/nidskalm.h declares it: each export makes structs of its parameters and calls the function of its name of the library
// nidskalm. A list is a pointer and a length; a reply is returned by value. A crate is built as a library or as a static library, not as both, so this
// one is thin. tools/build.sh names its archive libnidskalm.a.
#![tactic(auto)]

mod merges;
mod moves;
mod targets;
