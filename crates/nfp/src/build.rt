//! How this program was built.

/// What `nfp --version` says of the build. `tools/quick-build`, which proves nothing, puts another text here in its copy of the sources.
pub const BUILD: &str = "proved";
