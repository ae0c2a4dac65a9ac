// Laws alone, with no function: rows by compaction (SPECIFICATION.md, 4) put each vertex as low as its floor and its edges let it, and no
// rows that keep the floors and rise along every edge are lower. Without floors they are levels, which the edges alone give.
#![tactic(auto)]
