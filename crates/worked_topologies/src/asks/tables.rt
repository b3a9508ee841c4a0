//! Topologies, each with asks and behind each ask what is said of it:
//!
//!     solved AT OWN NUMBER    the domains of the ask and of the topology, its number, and which ends are known
//!     best ..                 for each entry with a way: entry, cost, exit, head, and the segment
//!     labels ..               the cost and the exit of each node
//!     search READS            how many links a search reads; `unread` where the cache reads none
//!     row ..                  for each row of the border table: entry, far address, head, cost
/// The source's domain.
pub const SOURCE: &[u8] = b"topology 1
node 10.1.0.1
out 10.1.0.1 10.2.0.1 10.12.0.1 10.12.0.2 2 1 1 1000 00000000
out 10.1.0.1 10.2.0.2 10.12.0.3 10.12.0.4 2 1 1 1000 00000000
%
ask 1 te 16777215 10.1.0.1 into 2 10.1.0.1 over 10.2.0.1 101 10.2.0.2 15 # the source as an entry
solved 1 1 1 source target
best 10.1.0.1 16 10.12.0.4 10.2.0.2 via 10.1.0.1
labels 16 10.12.0.4
search 0 unread
row 10.1.0.1 10.12.0.2 10.2.0.1 1
row 10.1.0.1 10.12.0.4 10.2.0.2 1";

/// Two borders that no link joins, so that there is no link to be read.
pub const TRANSIT: &[u8] = b"topology 2
node 10.2.0.1
node 10.2.0.2
out 10.2.0.1 10.3.0.1 10.23.0.1 10.23.0.2 3 1 1 1000 00000000
out 10.2.0.2 10.3.0.2 10.23.0.3 10.23.0.4 3 1 5 1000 00000000
entry 10.2.0.1 1
entry 10.2.0.2 1
%
ask 1 te 16777215 10.1.0.1 into 3 10.2.0.2 10.2.0.1 over 10.3.0.1 100 10.3.0.2 10 # several entries, in the order in which they are asked for
solved 2 2 1 target
best 10.2.0.2 15 10.23.0.4 10.3.0.2 via 10.2.0.2
best 10.2.0.1 101 10.23.0.2 10.3.0.1 via 10.2.0.1
labels 101 10.23.0.2 15 10.23.0.4
search 0 unread
row 10.2.0.1 10.23.0.2 10.3.0.1 1
row 10.2.0.2 10.23.0.4 10.3.0.2 5
ask 1 te 16777215 10.1.0.1 into 3 10.2.0.1 10.2.0.2 over 10.3.0.2 30 10.3.0.2 10 # a head without a row, and two rows of a head
solved 2 2 1 target
best 10.2.0.2 15 10.23.0.4 10.3.0.2 via 10.2.0.2
labels - 15 10.23.0.4
search 0 unread
row 10.2.0.1 10.23.0.2 10.3.0.1 1
row 10.2.0.2 10.23.0.4 10.3.0.2 5
ask 1 te 100 10.1.0.1 into 3 10.2.0.1 10.2.0.2 over 10.3.0.1 100 10.3.0.2 10 # a cap that one exit meets
solved 2 2 1 target
best 10.2.0.2 15 10.23.0.4 10.3.0.2 via 10.2.0.2
labels - 15 10.23.0.4
search 0 unread
row 10.2.0.1 10.23.0.2 10.3.0.1 1
row 10.2.0.2 10.23.0.4 10.3.0.2 5
ask 1 te 16777215 10.1.0.1 into 4 10.2.0.1 over 10.3.0.1 1 # out links to another domain alone
solved 2 2 1 target
labels - -
search 0 unread";

/// Two exits at the same cost, that with the least far address over two links.
pub const NEAR_EXIT: &[u8] = b"topology 2
node 10.2.0.1
node 10.2.0.5
node 10.2.0.6
node 10.2.0.7
link 10.2.0.1 10.2.0.6 10.22.0.1 10.22.0.2 1 4 1000 00000000
link 10.2.0.1 10.2.0.5 10.22.0.3 10.22.0.4 1 2 1000 00000000
link 10.2.0.5 10.2.0.7 10.22.0.5 10.22.0.6 1 2 1000 00000000
out 10.2.0.7 10.3.0.1 10.23.0.1 10.23.0.2 3 1 1 1000 00000000
out 10.2.0.6 10.3.0.2 10.23.0.5 10.23.0.6 3 1 1 1000 00000000
entry 10.2.0.1 1
%
ask 7 te 16777215 10.1.0.1 into 3 10.2.0.1 over 10.3.0.1 10 10.3.0.2 10 # equal sums go by the least far address
solved 2 2 1 target
best 10.2.0.1 15 10.23.0.2 10.3.0.1 via 10.2.0.1 10.22.0.4 10.22.0.6
labels 15 10.23.0.2 13 10.23.0.2 11 10.23.0.6 11 10.23.0.2
search 3
row 10.2.0.1 10.23.0.2 10.3.0.1 5
row 10.2.0.1 10.23.0.6 10.3.0.2 5
ask 7 te 16777215 10.2.0.1 into 3 10.2.0.5 10.2.0.1 over 10.3.0.1 10 10.3.0.2 10 # an entry inside
solved 2 2 1 source target
best 10.2.0.5 13 10.23.0.2 10.3.0.1 via 10.2.0.5 10.22.0.6
best 10.2.0.1 15 10.23.0.2 10.3.0.1 via 10.2.0.1 10.22.0.4 10.22.0.6
labels 15 10.23.0.2 13 10.23.0.2 11 10.23.0.6 11 10.23.0.2
search 3 unread
row 10.2.0.1 10.23.0.2 10.3.0.1 5
row 10.2.0.1 10.23.0.6 10.3.0.2 5
row 10.2.0.5 10.23.0.2 10.3.0.1 3
ask 7 te 16777215 10.1.0.1 into 3 10.2.0.1 over 10.3.0.1 10 10.3.0.2 9 # other costs beyond
solved 2 2 1 target
best 10.2.0.1 14 10.23.0.6 10.3.0.2 via 10.2.0.1 10.22.0.2
labels 14 10.23.0.6 13 10.23.0.2 10 10.23.0.6 11 10.23.0.2
search 3
row 10.2.0.1 10.23.0.2 10.3.0.1 5
row 10.2.0.1 10.23.0.6 10.3.0.2 5
ask 7 te 16777215 10.1.0.1 into 3 10.2.0.1 over 10.3.0.2 10 # one row beyond
solved 2 2 1 target
best 10.2.0.1 15 10.23.0.6 10.3.0.2 via 10.2.0.1 10.22.0.2
labels 15 10.23.0.6 - 11 10.23.0.6 -
search 1
row 10.2.0.1 10.23.0.2 10.3.0.1 5
row 10.2.0.1 10.23.0.6 10.3.0.2 5
ask 7 te 16777215 10.1.0.1 into 3 10.2.0.1 over 10.3.0.1 10 # the other one
solved 2 2 1 target
best 10.2.0.1 15 10.23.0.2 10.3.0.1 via 10.2.0.1 10.22.0.4 10.22.0.6
labels 15 10.23.0.2 13 10.23.0.2 - 11 10.23.0.2
search 2
row 10.2.0.1 10.23.0.2 10.3.0.1 5
row 10.2.0.1 10.23.0.6 10.3.0.2 5
ask 7 te 16777215 10.1.0.1 into 3 10.2.0.1 # no row beyond
solved 2 2 1 target
labels - - - -
search 0 unread
row 10.2.0.1 10.23.0.2 10.3.0.1 5
row 10.2.0.1 10.23.0.6 10.3.0.2 5
ask 7 te 16777215 10.1.0.1 into 4 10.2.0.1 over 10.3.0.1 10 10.3.0.2 10 # another domain beyond
solved 2 2 1 target
labels - - - -
search 0 unread";

/// The same costs to both exits over other nodes: now that with the least far address is the nearer one.
pub const FAR_EXIT: &[u8] = b"topology 2
node 10.2.0.1
node 10.2.0.5
node 10.2.0.6
node 10.2.0.7
link 10.2.0.1 10.2.0.7 10.22.0.1 10.22.0.2 1 4 1000 00000000
link 10.2.0.1 10.2.0.5 10.22.0.3 10.22.0.4 1 2 1000 00000000
link 10.2.0.5 10.2.0.6 10.22.0.5 10.22.0.6 1 2 1000 00000000
out 10.2.0.7 10.3.0.1 10.23.0.1 10.23.0.2 3 1 1 1000 00000000
out 10.2.0.6 10.3.0.2 10.23.0.5 10.23.0.6 3 1 1 1000 00000000
entry 10.2.0.1 1
%
ask 1 te 16777215 10.1.0.1 into 3 10.2.0.1 over 10.3.0.1 10 10.3.0.2 10
solved 2 2 1 target
best 10.2.0.1 15 10.23.0.2 10.3.0.1 via 10.2.0.1 10.22.0.2
labels 15 10.23.0.2 13 10.23.0.6 11 10.23.0.6 11 10.23.0.2
search 3
row 10.2.0.1 10.23.0.2 10.3.0.1 5
row 10.2.0.1 10.23.0.6 10.3.0.2 5
ask 1 te 16777215 10.1.0.1 into 3 10.2.0.1 over 10.3.0.1 10 # one row beyond
solved 2 2 1 target
best 10.2.0.1 15 10.23.0.2 10.3.0.1 via 10.2.0.1 10.22.0.2
labels 15 10.23.0.2 - - 11 10.23.0.2
search 1
row 10.2.0.1 10.23.0.2 10.3.0.1 5
row 10.2.0.1 10.23.0.6 10.3.0.2 5";

/// The destination's domain.
pub const TARGET: &[u8] = b"topology 3
node 10.3.0.1
node 10.3.0.2
node 10.3.0.9
link 10.3.0.1 10.3.0.9 10.33.0.1 10.33.0.2 1 100 1000 00000000
link 10.3.0.2 10.3.0.9 10.33.0.3 10.33.0.4 1 10 1000 00000000
entry 10.3.0.1 2
entry 10.3.0.2 2
%
ask 1 te 16777215 10.1.0.1 to 10.3.0.9 10.3.0.1 10.3.0.2
solved 3 3 1 target
best 10.3.0.1 100 10.3.0.9 - via 10.3.0.1 10.33.0.2
best 10.3.0.2 10 10.3.0.9 - via 10.3.0.2 10.33.0.4
labels 100 10.3.0.9 10 10.3.0.9 0 10.3.0.9
search 2
row 10.3.0.1 10.3.0.9 10.3.0.9 100
row 10.3.0.2 10.3.0.9 10.3.0.9 10
ask 1 te 16777215 10.1.0.1 to 10.3.0.9 10.3.0.2 # one entry of it
solved 3 3 1 target
best 10.3.0.2 10 10.3.0.9 - via 10.3.0.2 10.33.0.4
labels 100 10.3.0.9 10 10.3.0.9 0 10.3.0.9
search 2 unread
row 10.3.0.2 10.3.0.9 10.3.0.9 10
ask 2 te 16777215 10.1.0.1 to 10.3.0.9 10.3.0.1 10.3.0.2 # another generation
solved 3 3 1 target
best 10.3.0.1 100 10.3.0.9 - via 10.3.0.1 10.33.0.2
best 10.3.0.2 10 10.3.0.9 - via 10.3.0.2 10.33.0.4
labels 100 10.3.0.9 10 10.3.0.9 0 10.3.0.9
search 2
row 10.3.0.1 10.3.0.9 10.3.0.9 100
row 10.3.0.2 10.3.0.9 10.3.0.9 10
ask 1 te 16777215 10.3.0.1 to 10.3.0.9 10.3.0.2 10.1.0.1 10.3.0.1 # another source, the entries in another order, and one that is no node
solved 3 3 1 source target
best 10.3.0.2 10 10.3.0.9 - via 10.3.0.2 10.33.0.4
best 10.3.0.1 100 10.3.0.9 - via 10.3.0.1 10.33.0.2
labels 100 10.3.0.9 10 10.3.0.9 0 10.3.0.9
search 2 unread
row 10.3.0.1 10.3.0.9 10.3.0.9 100
row 10.3.0.2 10.3.0.9 10.3.0.9 10
ask 1 hops 16777215 10.1.0.1 to 10.3.0.9 10.3.0.1 10.3.0.2 # another metric
solved 3 3 1 target
best 10.3.0.1 1 10.3.0.9 - via 10.3.0.1 10.33.0.2
best 10.3.0.2 1 10.3.0.9 - via 10.3.0.2 10.33.0.4
labels 1 10.3.0.9 1 10.3.0.9 0 10.3.0.9
search 2
row 10.3.0.1 10.3.0.9 10.3.0.9 1
row 10.3.0.2 10.3.0.9 10.3.0.9 1
ask 1 te 16777215 10.1.0.1 to 10.3.0.2 10.3.0.1 10.3.0.2 # another target
solved 3 3 1 target
best 10.3.0.2 0 10.3.0.2 - via 10.3.0.2
labels - 0 10.3.0.2 -
search 0 unread
row 10.3.0.2 10.3.0.2 10.3.0.2 0
ask 1 te 16777215 10.1.0.1 to 10.2.0.1 10.3.0.1 10.1.0.1 # a target that is no node, and an entry that is none
solved 3 3 1
labels - - -
search 0 unread
ask 1 te 16777215 10.1.0.1 to 10.3.0.9 10.3.0.1 10.3.0.2 10.3.0.9 # the first once more, and the target as an entry
solved 3 3 1 target
best 10.3.0.1 100 10.3.0.9 - via 10.3.0.1 10.33.0.2
best 10.3.0.2 10 10.3.0.9 - via 10.3.0.2 10.33.0.4
best 10.3.0.9 0 10.3.0.9 - via 10.3.0.9
labels 100 10.3.0.9 10 10.3.0.9 0 10.3.0.9
search 2 unread
row 10.3.0.1 10.3.0.9 10.3.0.9 100
row 10.3.0.2 10.3.0.9 10.3.0.9 10
row 10.3.0.9 10.3.0.9 10.3.0.9 0
ask 1 te 50 10.1.0.1 to 10.3.0.9 # a lower cap, and no entry
solved 3 3 1 target
labels - 10 10.3.0.9 0 10.3.0.9
search 2";

/// Three nodes in a row and a dear link past the middle one; four ways out, one of them to another domain.
/// Only links into nodes with a label are read.
pub const ROW: &[u8] = b"topology 1
node 10.0.0.1
node 10.0.0.2
node 10.0.0.3
link 10.0.0.1 10.0.0.2 10.1.0.1 10.2.0.1 1 5 1000 00000000
link 10.0.0.2 10.0.0.3 10.1.0.2 10.2.0.2 1 7 1000 00000000
link 10.0.0.1 10.0.0.3 10.1.0.3 10.2.0.3 1 30 1000 00000000
out 10.0.0.3 10.9.0.9 10.1.0.9 10.2.0.9 2 1 4 1000 00000000
out 10.0.0.2 10.9.0.8 10.1.0.4 10.2.0.4 2 1 6 1000 00000000
out 10.0.0.2 10.8.0.7 10.1.0.5 10.2.0.5 3 1 1 1000 00000000
out 10.0.0.1 10.9.0.6 10.1.0.6 10.2.0.6 2 1 21 1000 00000000
%
ask 1 te 20 10.1.0.1 into 2 10.0.0.2 10.1.0.1 10.0.0.1 10.0.0.2 # entries out of order, twice, and one that is no node; a way that the cap forbids
solved 1 1 1 target
labels - - -
search 0 unread
row 10.0.0.1 10.2.0.4 10.9.0.8 11
row 10.0.0.1 10.2.0.9 10.9.0.9 16
row 10.0.0.2 10.2.0.4 10.9.0.8 6
row 10.0.0.2 10.2.0.9 10.9.0.9 11
ask 1 te 20 10.1.0.1 to 10.0.0.3 10.0.0.2 10.1.0.1 10.0.0.1 10.0.0.2
solved 1 1 1 target
best 10.0.0.2 7 10.0.0.3 - via 10.0.0.2 10.2.0.2
best 10.0.0.1 12 10.0.0.3 - via 10.0.0.1 10.2.0.1 10.2.0.2
best 10.0.0.2 7 10.0.0.3 - via 10.0.0.2 10.2.0.2
labels 12 10.0.0.3 7 10.0.0.3 0 10.0.0.3
search 3
row 10.0.0.1 10.0.0.3 10.0.0.3 12
row 10.0.0.2 10.0.0.3 10.0.0.3 7
ask 1 te 20 10.1.0.1 to 10.0.0.2 # the last node has no label
solved 1 1 1 target
labels 5 10.0.0.2 0 10.0.0.2 -
search 1
ask 1 te 20 10.1.0.1 to 10.0.0.1 # the first node alone has one
solved 1 1 1 target
labels 0 10.0.0.1 - -
search 0 unread";

/// Five nodes in a line with links in both directions, and a way from the second to the last past the others.
pub const LINE: &[u8] = b"topology 1
node 10.1.0.1
node 10.1.0.2
node 10.1.0.3
node 10.1.0.4
node 10.1.0.5
link 10.1.0.1 10.1.0.2 10.101.1.2 10.101.2.1 1 10 1000 00000000
link 10.1.0.2 10.1.0.1 10.101.2.1 10.101.1.2 1 10 1000 00000000
link 10.1.0.2 10.1.0.3 10.101.2.3 10.101.3.2 1 10 1000 00000000
link 10.1.0.3 10.1.0.2 10.101.3.2 10.101.2.3 1 10 1000 00000000
link 10.1.0.3 10.1.0.4 10.101.3.4 10.101.4.3 1 10 1000 00000000
link 10.1.0.4 10.1.0.3 10.101.4.3 10.101.3.4 1 10 1000 00000000
link 10.1.0.4 10.1.0.5 10.101.4.5 10.101.5.4 1 10 1000 00000000
link 10.1.0.5 10.1.0.4 10.101.5.4 10.101.4.5 1 10 1000 00000000
link 10.1.0.2 10.1.0.5 10.101.2.5 10.101.5.2 1 25 1000 00000000
link 10.1.0.5 10.1.0.2 10.101.5.2 10.101.2.5 1 25 1000 00000000
%
ask 1 te 1000 10.1.0.1 to 10.1.0.5 10.1.0.1
solved 1 1 1 source target
best 10.1.0.1 35 10.1.0.5 - via 10.1.0.1 10.101.2.1 10.101.5.2
labels 35 10.1.0.5 25 10.1.0.5 20 10.1.0.5 10 10.1.0.5 0 10.1.0.5
search 10
row 10.1.0.1 10.1.0.5 10.1.0.5 35
ask 1 te 20 10.1.0.1 to 10.1.0.5 # two links into each of the three nodes that have a label
solved 1 1 1 source target
labels - - 20 10.1.0.5 10 10.1.0.5 0 10.1.0.5
search 6
ask 1 te 0 10.1.0.1 to 10.1.0.5 # two links into the last
solved 1 1 1 source target
labels - - - - 0 10.1.0.5
search 2";

/// On a cache with room for two entries: the third key drops the second, since the first was used again.
pub const FULL: &[u8] = b"topology 3
node 10.3.0.1
node 10.3.0.2
node 10.3.0.9
link 10.3.0.1 10.3.0.9 10.33.0.1 10.33.0.2 1 100 1000 00000000
link 10.3.0.2 10.3.0.9 10.33.0.3 10.33.0.4 1 10 1000 00000000
%
ask 1 te 16777215 10.1.0.1 to 10.3.0.9
solved 3 3 1 target
labels 100 10.3.0.9 10 10.3.0.9 0 10.3.0.9
search 2
ask 2 te 16777215 10.1.0.1 to 10.3.0.9 # a second key
solved 3 3 1 target
labels 100 10.3.0.9 10 10.3.0.9 0 10.3.0.9
search 2
ask 1 te 16777215 10.1.0.1 to 10.3.0.9 # the first again
solved 3 3 1 target
labels 100 10.3.0.9 10 10.3.0.9 0 10.3.0.9
search 2 unread
ask 3 te 16777215 10.1.0.1 to 10.3.0.9 # a third key
solved 3 3 1 target
labels 100 10.3.0.9 10 10.3.0.9 0 10.3.0.9
search 2
ask 1 te 16777215 10.1.0.1 to 10.3.0.9 # the first is still there
solved 3 3 1 target
labels 100 10.3.0.9 10 10.3.0.9 0 10.3.0.9
search 2 unread
ask 2 te 16777215 10.1.0.1 to 10.3.0.9 # the second is not
solved 3 3 1 target
labels 100 10.3.0.9 10 10.3.0.9 0 10.3.0.9
search 2";
