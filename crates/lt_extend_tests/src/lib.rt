//! The calls of lt_extend that no text reaches, with memory enough.
#![tactic(auto)]

#[cfg(test)]
mod keeping;
