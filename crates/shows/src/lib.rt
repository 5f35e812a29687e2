// That turns of the code come to the run and the drain of the rules. Theory alone: specs/.
#![tactic(auto)]
