//! The ways in which a request of an element ends, and what keeps one pending, in rows as those of
//! `sequences`. In each, fifteen requests pin a topology each, so that no further one can be loaded before one
//! of them has ended.

pub const ENDINGS: &[u8] = b"
# an answer with branches
new
load d2
take one ask three sent-on
load bare
pins bare
take three told
full bare
solve 1 one branches
load bare

# an answer without a path
new
load bare
take one ask three sent-on
load bare
pins bare
take three none
full bare
solve 1 one none
load bare

# a chain that is not available beyond
new
load bare
take one ask three sent-on
load bare
pins bare
full bare
take three unavailable one unavailable
load bare

# an answer of the parent that is passed on
new
up parent
load bare
take client 2003001c0212000c00000000000000010412000c0a0200010a030009 parent 200300280212000c00000040000000010412000c0a0200010a0300090612000c0000020200000000
load bare
take one ask three sent-on
pins bare
full bare
take parent unavailable client client-unavailable
load bare

# a request that is given up
new
load bare
take one ask three sent-on
load bare
pins bare
full bare
take one cancel
load bare

# a request that is given up when it can be solved
new
load bare
take one ask three sent-on
load bare
pins bare
take three told
full bare
take one cancel
load bare

# no room beyond
new
load bare
take one ask three sent-on
load bare
pins bare
full bare
take three busy one busy
load bare

# a parameter that is not supported beyond
new
load bare
take one ask three sent-on
load bare
pins bare
full bare
take three not-supported one out-of-profile
load bare

# another error beyond
new
load bare
take one ask three sent-on
load bare
pins bare
full bare
take three other-error one unavailable
load bare

# a session that is lost, on which all of them wait
new
load bare
take one ask three sent-on
load bare
pins bare
full bare
down three
lost one 64 1
lost one 64 2
lost one 64 3
lost one 64 4
lost one 64 5
lost one 64 6
lost one 64 7
lost one 64 8
lost one 64 9
lost one 64 10
lost one 64 11
lost one 64 12
lost one 64 13
lost one 64 14
lost one 64 15
lost
load bare
load bare

# a peer that is gone, whose they all are
new
load bare
take one ask three sent-on
load bare
pins bare
full bare
down one
lost
load bare
load bare

# the error of a reply, a repeat, and what others give up
new
load bare
take one ask three sent-on
load bare
pins bare
take three not-asked
take one ask
take client cancel
take one busy
full bare

# an answer that is planned and not made, and keys that are not used up by it
new
load d2
take one ask three sent-on
load bare
pins bare
take three told
back 1
full bare
back 1
solve 1 one branches
load bare
";
