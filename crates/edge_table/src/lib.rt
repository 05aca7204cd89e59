// Document 01's table of edges, M1 to M10, proved as one conjunction.
#![tactic(auto)]

ghost use Rattle.edge_table.specs.Edges.{Edges};

// The table (specs/Edges.antt). The function does nothing; its contract is the claim.
pub fn edge_table()
    ensures { Edges }
{}
