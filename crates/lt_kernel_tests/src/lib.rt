//! One call, with ample memory, of each public function of lt_kernel, lt_store and lt_tables that may want memory and that no text reaches.
#![tactic(auto)]

#[cfg(test)]
mod calls;
#[cfg(test)]
mod rules;
#[cfg(test)]
mod terms;
