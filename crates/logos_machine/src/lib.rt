//! Defines lexers, which run codes on whole inputs or part by part. Used by `logos_scan`,
//! `logos_stream` and `logos_relex`.

#![tactic(auto)]

pub mod items;
pub mod laws;
pub mod machine;
