//! Tests of the action's basis, its elimination, and the reduced basis of the extended ideal, on worked systems.
#![tactic(auto)]

#[cfg(test)]
mod reduced;
#[cfg(test)]
mod systems;
