//! Runs without a fault, and the files that they read.
/// The topology and the certificate of one domain, and the settings and topologies of a network of two, by
/// their names.
pub const FILES: [(&str, &[u8]); 5] = [
    (
        "one.txt",
        b"topology 1\nnode 10.0.0.1\nnode 10.0.0.2\nnode 10.0.0.3\n\
         link 10.0.0.1 10.0.0.2 10.1.0.1 10.1.0.2 1 5 1000 00000000\n\
         link 10.0.0.2 10.0.0.3 10.1.0.3 10.1.0.4 1 10 1000 00000000\n\
         link 10.0.0.1 10.0.0.3 10.1.0.5 10.1.0.6 1 20 1000 00000000\n",
    ),
    (
        "holds.cert",
        b"certificate 1\nlabel 10.0.0.1 15 10.0.0.3\nlabel 10.0.0.2 10 10.0.0.3\n\
         label 10.0.0.3 0 10.0.0.3\npath 10.0.0.1 10.1.0.2 10.1.0.4\n",
    ),
    (
        "two.toml",
        b"[[element]]\nas = 1\nid = \"192.0.2.1\"\ntopology = \"west.txt\"\n\
          [[element]]\nas = 2\nid = \"192.0.2.2\"\ntopology = \"east.txt\"\n\
          [[link]]\na = 1\nb = 2\n[[peer]]\nname = \"r1\"\nas = 1\nclass = \"client\"\n",
    ),
    (
        "west.txt",
        b"topology 1\nnode 10.1.0.1\nnode 10.1.0.2\n\
          link 10.1.0.1 10.1.0.2 10.1.1.1 10.1.1.2 1 10 1000000 00000000\n\
          out 10.1.0.2 10.2.0.1 10.12.0.1 10.12.0.2 2 1 5 1000000 00000000\n",
    ),
    (
        "east.txt",
        b"topology 2\nnode 10.2.0.1\nnode 10.2.0.3\n\
          link 10.2.0.1 10.2.0.3 10.2.1.1 10.2.1.2 1 15 1000000 00000000\nentry 10.2.0.1 1\n",
    ),
];

/// A run: what each of its writes has, and for each file that it reads and each read of its input, how many
/// writes come before.
#[derive(Drop)]
pub struct Run {
    pub words: &'static str,
    pub input: &'static [u8],
    pub pieces: &'static [&'static [u8]],
    pub files: &'static [usize],
    pub reads: &'static [usize],
}

/// A certificate is checked for a request.
pub const VERIFY: Run = Run {
    words: "verify one.txt holds.cert",
    input: b"2003001C0212000C00000000000000010412000C0A0000010A000003",
    pieces: &[b"holds\n"],
    files: &[0, 0],
    reads: &[0, 0],
};

/// The topologies are loaded, the session between the elements comes up, and a client asks.
pub const PLAY: Run = Run {
    words: "play two.toml",
    input: b"load 1 west.txt\nload 2 east.txt\nsettle\nopen r1 1\n\
        feed r1 2001000c011000082000000120020004200300280212000c00000000000000010412000c0a0100010a0200030a12000c2004000120040002\n\
        finish\ndrain r1 1\n",
    pieces: &[
        b"1 ok generation 1\n",
        b"2 ok generation 1\n",
        b"3 carry 1 2\n3 2>1 20020004\n3 carry 2 1\n3 1>2 20020004\n3 carry 1 2\n3 carry 2 1\n3 ok\n",
        b"4 ok\n4 1>r1 2001000c01100008201e7800\n",
        b"5 take r1\n5 1>r1 20020004\n5 take r1\n5 take r1\n\
          5 1>2 200300300212000c00000040000000010412000c0a0100010a0200030612000c00000202000000000a12000820040002\n5 ok\n",
        b"6 carry 1 2\n6 solve 2 1\n\
          6 2>1 200400380212000c00000040000000010710001c01080a020001200040080001c000020201080a02000320000610000c0000000241700000\n\
          6 carry 2 1\n6 solve 1 1\n\
          6 1>r1 200400500212000c00000000000000010710003401080a010001200001080a010102200001080a0c0002200001080a020001200040080001c000020201080a02000320000610000c0000000241f00000\n\
          6 ok\n",
        b"7 ok 2001000c01100008201e780020020004200400500212000c00000000000000010710003401080a010001200001080a010102200001080a0c0002200001080a020001200040080001c000020201080a02000320000610000c0000000241f00000\n",
    ],
    files: &[0, 0, 1],
    reads: &[0, 0],
};

/// The same path, asked for by words: nothing is read but files, and all is written at once.
pub const PATH: Run = Run {
    words: "path two.toml 10.1.0.1 10.2.0.3 1 2",
    input: b"",
    pieces: &[b"cost 30\n10.1.0.1\n10.1.1.2\n10.12.0.2\n10.2.0.1\nkey 1 at 192.0.2.2\n10.2.0.3\n"],
    files: &[0, 0, 0],
    reads: &[],
};
