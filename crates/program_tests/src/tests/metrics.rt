//! What is counted, and what is reported of it.

mod meters;
mod pages;
mod requests;
mod visits;
