// What every answer of the five calls promises, whatever goes in: specs/. Theory alone; there is no code here.
#![tactic(auto)]
