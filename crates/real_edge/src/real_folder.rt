//! A folder of the file system.
mod calls;
mod copying;
mod outside;
mod own;
mod paths;
mod placed;
mod refusals;
mod system;

pub use calls::RealFolder;
