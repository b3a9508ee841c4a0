//! Messages to the parent and its messages, row by row, everything worked out by hand. The rows:
//!
//!     new CHILDREN [link AT FROM AT TO FAR TE ..]   a parent of the children 1 to their count, with these links
//!     up CHILD, down CHILD      a session comes up, or goes down
//!     lost [CHILD FLAGS ID]     the next request that is lost; without words, none
//!     take CHILD MESSAGE [CHILD MESSAGE ..]   a child's message, and the messages sent then, with their receivers
//!     idle                      no request can be solved
//!     job [AT ENTRY TARGET COST HOP ..]   a request can be solved, over these rows
//!     solve CHILD MESSAGE       it is solved and answered by this; before, an answer is planned and given up
//!
//! Addresses are eight hexadecimal digits; the near address of a link is its far address and 1000. A message
//! is a name of `messages` or hexadecimal digits. The ends are 10.1.0.1 and 10.3.0.9.

pub const SEQUENCES: &[u8] = b"
# Three domains, in a triangle of links: the way over the second costs less.
new 3 link 1 0a010001 2 0a020002 0a0c0004 1 link 2 0a020002 3 0a030002 0a170004 5 link 1 0a010001 3 0a030001 0a0d0002 1
up 1
up 2
up 3
take 1 ask 1 tail-of-1 1 end-of-1-2 2 tail-of-2 2 end-of-2-2 3 end-of-3
take 1 told-by-1
take 1 none-2
take 2 told-by-2
take 2 none-2
idle
take 3 told-by-3
job 1 0a010001 0a010001 0 0a010001 2 0a020002 0a020002 0 0a020002 3 0a030001 0a030009 100 0a030001 3 0a030002 0a030009 10 0a030002
solve 1 200400780212000c00000040000000010710005c01080a010001200040080001c000020101080a010001200001080a0c0004200001080a020002200040080001c000020201080a020002200001080a170004200001080a030002200040080002c000020301080a03000920000610000c0000000241800000
take 3 told-by-3 3 not-asked

# Without the link from the second to the third.
new 3 link 1 0a010001 2 0a020002 0a0c0004 1 link 1 0a010001 3 0a030001 0a0d0002 1
up 1
up 2
up 3
take 1 ask 1 tail-of-1 1 end-of-1-2 2 end-of-2 3 end-of-3
take 1 told-by-1
take 1 none-2
take 2 none
take 3 told-by-3
solve 1 200400580212000c00000040000000010710003c01080a010001200040080001c000020101080a010001200001080a0d0002200001080a030001200040080001c000020301080a03000920000610000c0000000242ca0000

# Without links.
new 3
up 1
up 2
up 3
take 1 ask 1 end-of-1 2 end-of-2 3 end-of-3
take 1 none
take 2 none
take 3 told-by-3
solve 1 none

# A session that is not up: nothing is sent.
new 2
up 1
take 1 ask 1 unavailable
up 2
take 1 ask 1 end-of-1 2 end-of-2

# A child that tells nothing ends the request, and another is told that its answer is late.
new 2
up 1
up 2
take 1 ask 1 end-of-1 2 end-of-2
take 2 unavailable 1 unavailable
take 1 none 1 not-asked
take 1 ask 1 end-of-1-2 2 end-of-2-2

# What is out of the profile of a child is out of that of the parent.
new 2
up 1
up 2
take 1 ask 1 end-of-1 2 end-of-2
take 2 200600200210000c00000040000000010d100008000004040d10000800000800 1 out-of-profile
take 1 none 1 not-asked
take 1 ask 1 end-of-1-2 2 end-of-2-2
take 2 200600180210000c00000040000000020d10000800000d01 1 out-of-profile
take 1 ask 1 end-of-1-3 2 end-of-2-3
take 2 200600180210000c00000040000000030d10000800000601 1 unavailable

# An error of a reply ends nothing, nor does one of an id of another child.
new 2
up 1
up 2
take 1 ask 1 end-of-1 2 end-of-2
take 2 200600200210000c00000040000000010d100008000008000d10000800000404
take 2 200600180210000c00000040000000020d10000800000404
take 1 none
take 2 none
solve 1 none

# A child without room, and a child that takes its request back.
new 2
up 1
up 2
take 1 ask 1 end-of-1 2 end-of-2
take 2 busy 1 busy
take 1 none 1 not-asked
take 1 ask 1 end-of-1-2 2 end-of-2-2
take 2 cancel
take 1 cancel
take 1 none-2 1 not-asked-2
take 2 none-2 2 not-asked-2

# A session that breaks: its requests are lost, and those of its child are dropped.
new 2
up 1
up 2
take 1 ask 1 end-of-1 2 end-of-2
down 2
lost 1 64 1
lost
take 1 none 1 not-asked
up 2
take 2 ask 1 end-of-1-2 2 end-of-2-2
down 2
lost
take 1 none-2 1 not-asked-2

# An expansion is refused, a sequence is not taken, a repeat is not answered.
new 1
up 1
take 1 2003001c0212000c00000100000000071012000c40080002c0000202 1 200400200212000c000001000000000703100010000000000001000400000010
take 1 end-of-1 1 200600180210000c00000040000000010d10000800000404
take 1 ask 1 end-of-1
take 1 ask
take 1 ask-2 1 end-of-1-2
take 1 none
solve 1 none
";
