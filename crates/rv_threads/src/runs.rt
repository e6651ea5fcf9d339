//! Traces judged by `rv_run`, in one thread and in several.
mod gates;
mod leaving;
mod meeting;
mod rows;
mod runs;
