// Programs of one or two classes, as class files (JVMS SE 7, 4.1), and their graphs, worked out by hand. A graph is written as in written.rt.
// In its numbers a node is that of the whole program, a location that of the program's, in order, and a call that of the program's, by
// statement, the root's last.

use crate::folders::ClassBytes;

// A class `Box` with a field `v I`. Its constructor: 0 aload_0, 1 invokespecial java/lang/Object.<init> ()V, 4 return.
const BOX: &[u8] =
    b"\xca\xfe\xba\xbe\x00\x00\x003\x00\x0c\x01\x00\x03Box\x07\x00\x01\x01\x00\x10java/lang/Object\x07\x00\x03\x01\x00\x01v\x01\x00\x01I\x01\x00\x06<init>\x01\x00\x03()V\x01\x00\x04Code\x0c\x00\x07\x00\x08\x0a\x00\x04\x00\x0a\x00!\x00\x02\x00\x04\x00\x00\x00\x01\x00\x00\x00\x05\x00\x06\x00\x00\x00\x01\x00\x00\x00\x07\x00\x08\x00\x01\x00\x09\x00\x00\x00\x11\x00\x01\x00\x01\x00\x00\x00\x05*\xb7\x00\x0b\xb1\x00\x00\x00\x00\x00\x00";

// A class `Main`. Its `main`: 0 new Box, 3 dup, 4 invokespecial Box.<init> ()V, 7 astore_1, 8 aload_1, 9 bipush 7, 11 putfield Box.v I,
// 14 aload_1, 15 getfield Box.v I, 18 istore_2, 19 return.
const MAIN: &[u8] =
    b"\xca\xfe\xba\xbe\x00\x00\x003\x00\x12\x01\x00\x04Main\x07\x00\x01\x01\x00\x10java/lang/Object\x07\x00\x03\x01\x00\x04main\x01\x00\x16([Ljava/lang/String;)V\x01\x00\x04Code\x01\x00\x03Box\x07\x00\x08\x01\x00\x06<init>\x01\x00\x03()V\x0c\x00\x0a\x00\x0b\x0a\x00\x09\x00\x0c\x01\x00\x01v\x01\x00\x01I\x0c\x00\x0e\x00\x0f\x09\x00\x09\x00\x10\x00!\x00\x02\x00\x04\x00\x00\x00\x00\x00\x01\x00\x09\x00\x05\x00\x06\x00\x01\x00\x07\x00\x00\x00 \x00\x02\x00\x03\x00\x00\x00\x14\xbb\x00\x09Y\xb7\x00\x0dL+\x10\x07\xb5\x00\x11+\xb4\x00\x11=\xb1\x00\x00\x00\x00\x00\x00";

/// The class files of a box that is written and read.
pub const BOXED: &[ClassBytes] = &[
    ClassBytes {
        path: b"f/Box.class",
        bytes: BOX,
    },
    ClassBytes {
        path: b"f/Main.class",
        bytes: MAIN,
    },
];

/// The constructor's call goes outside, with an argument alone. Location 0 is the field of the box that 0 of `main` makes: written at 11,
/// read at 15. Calls are numbered by statement: 0 that of the constructor, 1 that of `main`, 2 the root's.
pub const BOXED_GRAPHS: &str = "<init>:
0 formal 0, call 1 from 10
1 own 0, thin 0
2 own 1
3 argument 1 0, thin 1
4 own 4
main:
5 formal 0, call 2 from 20
6 heap in 0, call 2 from 21
7 own 0
8 own 3
9 own 4
10 argument 4 0, thin 7
11 own 7, thin 7
12 own 8, thin 11
13 own 9
14 own 11, base 12, thin 13
15 own 14, thin 11
16 own 15, thin 6, thin 14, base 15
17 own 18, thin 16
18 own 19
19 heap out 0, thin 14
:
20 argument 0 0
21 heap argument 0 0, thin 22
22 heap result 0 0, return 2 from 19
";

// A class `Cell` with a field `v I`. Its static methods are
// get (LCell;)I: 0 aload_0, 1 getfield Cell.v I, 4 ireturn;
// main: 0 new Cell, 3 astore_1, 4 aload_1, 5 invokestatic Cell.set (LCell;)V, 8 aload_1, 9 invokestatic Cell.get (LCell;)I, 12 istore_2,
// 13 return;
// set (LCell;)V: 0 aload_0, 1 iconst_1, 2 putfield Cell.v I, 5 return.
const CELL: &[u8] =
    b"\xca\xfe\xba\xbe\x00\x00\x003\x00\x14\x01\x00\x04Cell\x07\x00\x01\x01\x00\x10java/lang/Object\x07\x00\x03\x01\x00\x01v\x01\x00\x01I\x0c\x00\x05\x00\x06\x09\x00\x02\x00\x07\x01\x00\x03get\x01\x00\x09(LCell;)I\x0c\x00\x09\x00\x0a\x0a\x00\x02\x00\x0b\x01\x00\x03set\x01\x00\x09(LCell;)V\x0c\x00\x0d\x00\x0e\x0a\x00\x02\x00\x0f\x01\x00\x04Code\x01\x00\x04main\x01\x00\x16([Ljava/lang/String;)V\x00!\x00\x02\x00\x04\x00\x00\x00\x01\x00\x00\x00\x05\x00\x06\x00\x00\x00\x03\x00\x09\x00\x09\x00\x0a\x00\x01\x00\x11\x00\x00\x00\x11\x00\x01\x00\x01\x00\x00\x00\x05*\xb4\x00\x08\xac\x00\x00\x00\x00\x00\x09\x00\x12\x00\x13\x00\x01\x00\x11\x00\x00\x00\x1a\x00\x01\x00\x03\x00\x00\x00\x0e\xbb\x00\x02L+\xb8\x00\x10+\xb8\x00\x0c=\xb1\x00\x00\x00\x00\x00\x09\x00\x0d\x00\x0e\x00\x01\x00\x11\x00\x00\x00\x12\x00\x02\x00\x01\x00\x00\x00\x06*\x04\xb5\x00\x08\xb1\x00\x00\x00\x00\x00\x00";

/// The class file of a field that is written and read by calls.
pub const CALLING: &[ClassBytes] = &[ClassBytes {
    path: b"f/Cell.class",
    bytes: CELL,
}];

/// Location 0 is the field of the cell that `main` makes: `set` defines it, `get` uses it, and `main` both, by its calls. Calls: 0 and 1
/// those of `main`, 2 the root's.
pub const CALLING_GRAPHS: &str = "get:
0 formal 0, call 1 from 16
1 heap in 0, call 1 from 18
2 own 0, thin 0
3 own 1, thin 1, base 2
4 own 4, thin 3
5 return, thin 4
main:
6 formal 0, call 2 from 28
7 heap in 0, call 2 from 29
8 own 0
9 own 3, thin 8
10 own 4, thin 9
11 own 5
12 argument 5 0, thin 10
13 heap result 5 0, return 0 from 27
14 own 8, thin 9
15 own 9
16 argument 9 0, thin 14
17 result 9, return 1 from 5
18 heap argument 9 0, thin 7, thin 13
19 own 12, thin 17
20 own 13
21 heap out 0, thin 13
set:
22 formal 0, call 0 from 12
23 own 0, thin 22
24 own 1
25 own 2, base 23, thin 24
26 own 5
27 heap out 0, thin 25
:
28 argument 0 0
29 heap argument 0 0, thin 30
30 heap result 0 0, return 2 from 21
";

// A class `Throws`. Its static methods are
// boom (LThrows;)V: 0 aload_0, 1 athrow;
// main: 0 new Throws, 3 invokestatic Throws.boom (LThrows;)V, 6 new Throws, 9 athrow, 10 astore_1, 11 return, with handlers from 3 to 6 at
// 10 for Throws, and from 9 to 10 at 10 for any type.
const THROWS: &[u8] =
    b"\xca\xfe\xba\xbe\x00\x00\x003\x00\x0c\x01\x00\x06Throws\x07\x00\x01\x01\x00\x10java/lang/Object\x07\x00\x03\x01\x00\x04boom\x01\x00\x0b(LThrows;)V\x0c\x00\x05\x00\x06\x0a\x00\x02\x00\x07\x01\x00\x04Code\x01\x00\x04main\x01\x00\x16([Ljava/lang/String;)V\x00!\x00\x02\x00\x04\x00\x00\x00\x00\x00\x02\x00\x09\x00\x05\x00\x06\x00\x01\x00\x09\x00\x00\x00\x0e\x00\x01\x00\x01\x00\x00\x00\x02*\xbf\x00\x00\x00\x00\x00\x09\x00\x0a\x00\x0b\x00\x01\x00\x09\x00\x00\x00(\x00\x01\x00\x02\x00\x00\x00\x0c\xbb\x00\x02\xb8\x00\x08\xbb\x00\x02\xbfL\xb1\x00\x02\x00\x03\x00\x06\x00\x0a\x00\x02\x00\x09\x00\x0a\x00\x0a\x00\x00\x00\x00\x00\x00";

/// The class file of exceptions that go through a handler.
pub const THROWING: &[ClassBytes] = &[ClassBytes {
    path: b"f/Throws.class",
    bytes: THROWS,
}];

/// There is no location. What `boom` throws reaches the handler, and may leave `main` too, since the entry that covers the call takes one
/// type alone; what `main` throws doesn't leave it. The root has no node for what `main` throws. Calls: 0 that of `main`, 1 the root's.
pub const THROWING_GRAPHS: &str = "boom:
0 formal 0, call 0 from 7
1 own 0, thin 0
2 own 1, thin 1
3 thrown, thin 2
main:
4 formal 0, call 1 from 14
5 own 0
6 own 3
7 argument 3 0, thin 5
8 exception 3, return 0 from 3
9 own 6
10 own 9, thin 9
11 own 10, thin 8, thin 10
12 own 11
13 thrown, thin 8
:
14 argument 0 0
";

// A class `Main`. Its `main`: 0 iconst_1, 1 newarray int, 3 astore_1, 4 aload_1, 5 iconst_0, 6 bipush 9, 8 iastore, 9 iconst_1,
// 10 newarray int, 12 astore_2, 13 aload_1, 14 iconst_0, 15 aload_2, 16 iconst_0, 17 iconst_1,
// 18 invokestatic java/lang/System.arraycopy (Ljava/lang/Object;ILjava/lang/Object;II)V, 21 aload_2, 22 iconst_0, 23 iaload, 24 istore_3,
// 25 return.
const COPY: &[u8] =
    b"\xca\xfe\xba\xbe\x00\x00\x003\x00\x0e\x01\x00\x04Main\x07\x00\x01\x01\x00\x10java/lang/Object\x07\x00\x03\x01\x00\x04main\x01\x00\x16([Ljava/lang/String;)V\x01\x00\x04Code\x01\x00\x10java/lang/System\x07\x00\x08\x01\x00\x09arraycopy\x01\x00*(Ljava/lang/Object;ILjava/lang/Object;II)V\x0c\x00\x0a\x00\x0b\x0a\x00\x09\x00\x0c\x00!\x00\x02\x00\x04\x00\x00\x00\x00\x00\x01\x00\x09\x00\x05\x00\x06\x00\x01\x00\x07\x00\x00\x00&\x00\x05\x00\x04\x00\x00\x00\x1a\x04\xbc\x0aL+\x03\x10\x09O\x04\xbc\x0aM+\x03,\x03\x04\xb8\x00\x0d,\x03.>\xb1\x00\x00\x00\x00\x00\x00";

/// The class file of an array that is copied outside.
pub const COPYING: &[ClassBytes] = &[ClassBytes {
    path: b"f/Main.class",
    bytes: COPY,
}];

/// Locations 0 and 1 are the elements of the arrays made at 1 and at 10; their lengths are defined and never used. The call goes outside:
/// it writes all five arguments, and what the arrays hold, into both arrays. Nothing leads from the call to itself. Calls: 0 that of
/// `main`, 1 the root's.
pub const COPYING_GRAPHS: &str = "main:
0 formal 0, call 1 from 31
1 heap in 0, call 1 from 32
2 heap in 1, call 1 from 33
3 own 0
4 own 1, thin 3
5 own 3, thin 4
6 own 4, thin 5
7 own 5
8 own 6
9 own 8, base 6, base 7, thin 8
10 own 9
11 own 10, thin 10
12 own 12, thin 11
13 own 13, thin 5
14 own 14
15 own 15, thin 12
16 own 16
17 own 17
18 own 18, thin 1, thin 2, thin 9, thin 19, thin 20, thin 21, thin 22, thin 23
19 argument 18 0, thin 13
20 argument 18 1, thin 14
21 argument 18 2, thin 15
22 argument 18 3, thin 16
23 argument 18 4, thin 17
24 own 21, thin 12
25 own 22
26 own 23, thin 2, thin 18, base 24, base 25
27 own 24, thin 26
28 own 25
29 heap out 0, thin 9, thin 18
30 heap out 1, thin 18
:
31 argument 0 0
32 heap argument 0 0, thin 34
33 heap argument 0 1, thin 35
34 heap result 0 0, return 1 from 29
35 heap result 0 1, return 1 from 30
";

// A class `Loop` with a static field `n I`. Its static methods are
// <clinit> ()V: 0 iconst_5, 1 putstatic Loop.n I, 4 return;
// main: 0 getstatic Loop.n I, 3 iconst_1, 4 iadd, 5 dup, 6 putstatic Loop.n I, 9 ifne 0, 12 return.
const LOOP: &[u8] =
    b"\xca\xfe\xba\xbe\x00\x00\x003\x00\x0e\x01\x00\x04Loop\x07\x00\x01\x01\x00\x10java/lang/Object\x07\x00\x03\x01\x00\x01n\x01\x00\x01I\x0c\x00\x05\x00\x06\x09\x00\x02\x00\x07\x01\x00\x08<clinit>\x01\x00\x03()V\x01\x00\x04Code\x01\x00\x04main\x01\x00\x16([Ljava/lang/String;)V\x00!\x00\x02\x00\x04\x00\x00\x00\x01\x00\x08\x00\x05\x00\x06\x00\x00\x00\x02\x00\x08\x00\x09\x00\x0a\x00\x01\x00\x0b\x00\x00\x00\x11\x00\x01\x00\x00\x00\x00\x00\x05\x08\xb3\x00\x08\xb1\x00\x00\x00\x00\x00\x09\x00\x0c\x00\x0d\x00\x01\x00\x0b\x00\x00\x00\x19\x00\x02\x00\x01\x00\x00\x00\x0d\xb2\x00\x08\x04`Y\xb3\x00\x08\x9a\xff\xf7\xb1\x00\x00\x00\x00\x00\x00";

/// The class file of a loop that reads what it wrote.
pub const LOOPING: &[ClassBytes] = &[ClassBytes {
    path: b"f/Loop.class",
    bytes: LOOP,
}];

/// Location 0 is the static field. The root calls the initializer, and then `main`, by calls 0 and 1: it has two definitions of the
/// location, and one use. 6 leads to 0 by way of 9.
pub const LOOPING_GRAPHS: &str = "<clinit>:
0 own 0
1 own 1, thin 0
2 own 4
3 heap out 0, thin 1
main:
4 formal 0, call 1 from 15
5 heap in 0, call 1 from 16
6 own 0, thin 5, thin 10
7 own 3
8 own 4, thin 6, thin 7
9 own 5
10 own 6, thin 8
11 own 9, thin 8
12 own 12
13 heap out 0, thin 10
:
14 heap result 0 0, return 0 from 3
15 argument 1 0
16 heap argument 1 0, thin 14, thin 17
17 heap result 1 0, return 1 from 13
";
