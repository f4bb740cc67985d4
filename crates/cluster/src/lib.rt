// The clusters into which the ids of a node are split (document 01, 'Clusters'): definitions and laws alone, no code.
#![tactic(auto)]
