// What a sheet alone fixes: walks and hops, the neighbour that a box takes an origin from, the farthest member. Theory alone: specs/. There is no code here.
#![tactic(auto)]
