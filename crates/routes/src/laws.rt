// The laws that the table of routes rests on, each a theorem that a contract names.
pub mod build;
pub mod counts;
pub mod invariant;
pub mod keys;
pub mod late;
pub mod machine;
pub mod repr;
pub mod run;
pub mod table;
pub mod tree;
