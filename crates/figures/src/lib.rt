// Numbers as text: texts and decimal numbers put into a lent buffer (texts), and lines that grow by them (lines). Relies on crate files for putting a
// byte; knows nothing else of document 01. The programs' lines are made of it (crate desk). What text is stands in specs/.

#![tactic(auto)]

pub mod lines;
pub mod texts;
