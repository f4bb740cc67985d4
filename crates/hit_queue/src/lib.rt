// The queue of hits: the hits of the vectors found are put into it, and those of an answer taken out (document 01, 'Search').
#![tactic(auto)]

pub mod answer;
pub mod popped;
pub mod queue;
