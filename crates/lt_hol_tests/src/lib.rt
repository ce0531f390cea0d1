//! One call, with ample memory, of each public function of lt_types, lt_terms and lt_hol that may want memory and that no text reaches.
#![tactic(auto)]

#[cfg(test)]
mod makers;
#[cfg(test)]
mod names;
#[cfg(test)]
mod terms;
