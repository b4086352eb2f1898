//! The help texts, and the version.

/// The program's version, and that it was proved before it was built. In the plain form of the
/// sources the stand-in of clap prints that it wasn't.
pub(crate) const VERSION: &str = "0.9.0 (proved)";

/// How the program is called.
pub(crate) const USAGE: &str = "dvg COMMAND [OPTIONS] < INPUT";

/// What the program's help prints after its commands.
pub(crate) const PROGRAM: &str =
    "Each command reads standard input and writes standard output. `dvg help COMMAND`
tells what a command reads and writes, with its limits and an example.
A fault of the input is printed on standard error, after `dvg: `.

Exit status:
   0  done, or a help text or the version that was asked for
   1  a fault of the input, or the answer is no: an invalid draft or frame, a dump
      that draws no picture, a log with a torn picture, one that contradicts
      itself, or one that has nothing to judge; a game that is refused
   2  a failing read or write, or out of memory
   3  a game of which not all that it offers and puts is seen
  64  arguments that ask for nothing the program can do: a file is no argument,
      it is read by `<`

Example:
  $ printf 'labs 512 400 0\\nvctr 9 -100 100 7\\nhalt\\n' | dvg check
  ok 5 words";

/// How `list` is called.
pub(crate) const LIST_USAGE: &str = "dvg list [--at HHH] < WORDS";

/// The input and output of `list`.
pub(crate) const LIST: &str =
    "Standard input: words, the low byte of each first, at most 8,192 bytes.

Standard output: one line per instruction: the place of its first word, counted
in words from 000, its name and its numbers. Places and addresses are
hexadecimal, other numbers decimal. A `*` ends the line of words that aren't the
canonical spelling. With `--at HHH` the first word stands at this address, and
places count on from it: 000 comes after FFF.

Faults: `too long` for more than 8,192 bytes, `odd length` for an odd number of
them, and `cut at HHH` where the last word begins an instruction of two words.

Example:
  $ printf '\\144\\220\\144\\164' | dvg list
  000 VCTR 9 -100 100 7
  $ printf '\\144\\220\\144\\164' | dvg list --at 201
  201 VCTR 9 -100 100 7

What is wrong with an input, and what to do: `dvg explain < INPUT`.";

/// The input and output of `rom`.
pub(crate) const ROM: &str =
    "Standard input: the 2,048 or 4,096 bytes of a ROM, the low byte of each word
first.

Standard output: of 2,048 bytes 128 lines `rom HHH HHHH ..`, each with a word
address and the eight words that stand from there on, in hexadecimal. The first
address is 800, the last BF8. Of 4,096 bytes the line `map 4096` and 256 lines
`rom HHH HHHH ..`, from 400 on. `check` and `play` read such lines.

Fault: `rom size` for any other number of bytes.

Example:
  $ head -c 2048 /dev/zero | dvg rom | tail -n 1
  rom BF8 0000 0000 0000 0000 0000 0000 0000 0000

What is wrong with an input, and what to do: `dvg explain < INPUT`.";

/// How `picture` is called.
pub(crate) const PICTURE_USAGE: &str =
    "dvg picture [--all | [--moves] [--units] | --svg [--scale N]] < DUMP";

/// The input and output of `picture`.
pub(crate) const PICTURE: &str =
    "Standard input: a dump of the vector memory, the low byte of each word first: the
2,048 bytes of its RAM (words 000 to 3FF), and then the 2,048 bytes of a ROM
(800 to BFF) or the 4,096 of the larger one (400 to BFF).

The generator is started once over this memory, which doesn't change, with the
beam at 0 0 and scale 0. Standard output is one of these:

  picture W N       W words were fetched up to the HALT. N lines `x0 y0 x1 y1 z`
                    follow, one per stroke: from where to where, in 1/512 of a
                    screen unit, and the intensity
  broke HHH F       the run broke at the word fetched from HHH, where F is
                    1 for a call inside of four calls, 2 for a return outside of
                    any call, 3 for an address where there is no memory
  endless           neither happened within 65,536 words

With `--all` there is first one line per instruction that is run, in order: its
address, its name and its numbers as `dvg list` writes them, and after `at` the
beam after it: x, y and scale. Where it draws a stroke, its line follows.

With `--moves` there is first one line `HHH x0 y0 x1 y1 z` per move, in order: the
address of its VCTR, SVEC or LABS, from where to where, and the intensity, which is
0 where nothing is seen and of each LABS. A run that broke or is endless has them
up to its last whole instruction.

With `--units` moves and strokes are in whole units, 0 to 4095, as hardware counts
them: along each axis a vector of d in 1/512 counts (|d| + 256) / 512, rounded down,
with the sign of d, also where nothing is seen, and a LABS sets the count.

With `--svg` standard output is the picture as SVG, in which at 100 percent a
screen unit is a pixel. If the run breaks or never ends, the SVG has the strokes
so far; its title, also on standard error, says why: `broke HHH F` or `endless`.
The status is 1 wherever there is no picture.

Fault: `dump size N: wanted are 4096 or 6144 bytes` for N bytes, any other number;
N is `6145 or more` for more than 6,144.

Example:
  $ printf '\\001\\340\\220\\241\\000\\002\\144\\220\\144\\164\\000\\260' >dump
  $ head -c 4084 /dev/zero >>dump
  $ dvg picture <dump
  picture 6 1
  262144 204800 210944 256000 7

What is wrong with an input, and what to do: `dvg explain < INPUT`.";

/// The input and output of `check`.
pub(crate) const CHECK: &str =
    "Standard input: a draft as text, at most 1,048,576 bytes. First may come a line
`map 2048` or `map 4096`, the number of the ROM's bytes: its words are those of
800 to BFF, or of 400 to BFF; 2048 holds where there is no such line. Then lines
`rom HHH HHHH ..`: one to eight words of the ROM from one of these addresses on,
in hexadecimal. A word that no line gives is D000. Then a line an operation, at
most 511, which are numbered from 0:

  labs X Y S        put the beam at X Y and set the global scale
                    (X and Y 0 to 4095, S 0 to 15)
  vctr S DX DY Z    move the beam by DX and DY, with local scale S, and draw
                    with intensity Z, where 0 draws nothing
                    (S 0 to 9, DX and DY -1023 to 1023, Z 0 to 15)
  svec S DX DY Z    the same in one word, with moves of 256 times DX and DY
                    (S 2 to 5, DX and DY -3 to 3, Z 0 to 15)
  call N            call operation N (0 to 65535)
  jump N            go on at operation N (0 to 65535)
  callrom HHH       call the ROM word at this address
  jumprom HHH       go on at the ROM word at this address
  return            return from the newest call
  halt              end the picture

With scales that add up to 9, moves are in units of the screen; each step less
halves them, and from 10 to 15 nothing moves (scales add up modulo 16).

Parts of a line are separated by one space, and numbers have no leading zeros.
An empty line and a line that begins with `#` are passed over.

Standard output: `ok W words` for a draft that may be drawn, and with `--bound`
`ok W words N fetches`, where N is how many words the generator fetches in the
whole run, word zero included. Else one of these, where I is an operation and
PLACE is `op I` or `word HHH`:

  fault 1 empty              there is no operation
  fault 2 no labs            operation 0 is no labs
  fault 3 too long           the operations take more than 511 words: labs and
                             vctr two, others one
  fault 4 target I           I names an operation that isn't there
  fault 5 runs off I         I is the last operation, and one must come after it
  fault 6 out of rom PLACE   this leads out of the ROM's words
  fault 7 too deep PLACE     this calls inside of four calls
  fault 8 no caller PLACE    this returns outside of any call
  fault 9 loops              a place leads back to itself, with as many calls
                             open, so the picture may have no end

Faults of the text: `too long` for more than 1,048,576 bytes, `syntax at line N`
for a line that is none of these or stands where it may not, and `full at line N`
for operation 512. Lines are numbered from 1.

Example:
  $ printf 'labs 512 400 0\\nvctr 9 -100 100 7\\nhalt\\n' | dvg check
  ok 5 words
  $ printf 'labs 512 400 0\\nvctr 9 -100 100 7\\nhalt\\n' | dvg check --bound
  ok 5 words 6 fetches

What is wrong with an input, and what to do: `dvg explain < INPUT`.";

/// How `play` is called.
pub(crate) const PLAY_USAGE: &str =
    "dvg play [--all | --svg [--scale N] [--rate N]] [--banked] < TRACE";

/// The input and output of `play`.
pub(crate) const PLAY: &str =
    "Standard input: a trace as text, at most 1,048,576 bytes. Lines `map` and `rom`
may come first, as `dvg rom` writes them and `dvg help check` tells them; a word
that no line gives is D000. Then events, at most 65,536, which are numbered from
0:

  offer         offer a frame to the driver: this line, a line for each of its
  ..            operations (`dvg help check` tells them, at most 511), and `end`
  end
  redraw        ask for the published frame once more
  tick [N]      a step of the driver
  strobe [N]    a strobe that the driver sent arrives at the generator
  fetch [N]     the generator fetches a byte: a word's low one, then its high one
  resetgen      reset the generator
  resetcpu      reset the driver
  resetall HH   reset both, with a RAM of bytes HH

N is 1 to 9999 and repeats the event. The RAM holds zeros at first. A driver is
busy at first, for two ticks and until the generator is halted, and then from
an offer or a redraw until it sends the strobe. An empty line and a line that
begins with `#` are passed over.

Standard output: for each finished picture a line `picture EVENT STROKES`, with
the event that finished it and the number of its strokes, and then a line
`x0 y0 x1 y1 z` a stroke: from where to where, in 1/512 of a screen unit, and
the intensity. With `--all` a line for each event instead, with what came of it,
and a picture's strokes after the event that finished it.

With `--svg` standard output is one SVG, in which the finished pictures are shown
in turn, and then from the first one again. At 100 percent a screen unit is a
pixel.

With `--banked` the RAM is kept in banks, of which none has bytes of both
halves. The same is written, so one sees that no picture depends on how the RAM
is kept.

Faults: `too long` for more than 1,048,576 bytes, `syntax at line N` for a line
that is none of these or stands where it may not, `full at line N` for operation
512 of a frame, `too many events at line N` for event 65,537, and
`offer without end`. Lines are numbered from 1.

Example:
  $ printf 'tick 2\\noffer\\nlabs 512 400 0\\nvctr 9 -100 100 7\\nhalt\\nend\\n' >trace
  $ printf 'tick 14\\nstrobe\\nfetch 12\\n' >>trace
  $ dvg play <trace
  picture 29 1
  262144 204800 210944 256000 7

What is wrong with an input, and what to do: `dvg explain < INPUT`.";

/// How `torn` is called.
pub(crate) const TORN_USAGE: &str = "dvg torn [--moments [--all]] [--base HHHH] < LOG";

/// The input and output of `torn`.
pub(crate) const TORN: &str =
    "Standard input: a log of what a system of any kind did, as text of any length, one
line per event:

  started           a strobe began a run of the generator
  low HHH HH        the generator fetched the low byte of the word at HHH
  fetched HHH HHHH  it fetched the word at HHH, or the high byte of it
  halted            the run ended
  reset             the generator was reset, so the run is over
  wrote HHH HH      a byte was written in the RAM, at this byte address, 000
                    to 7FF

A line has at most 64 bytes. Numbers are hexadecimal, with as many digits as
here. Capitals, and a CR at the end, are read, too. An empty line and a line that
begins with `#` are passed over.

With `--base HHHH` it is `wrote HHHH HH`, at an address of the processor: the RAM
lies there from the base on, and a line that writes elsewhere is at fault. Words
have the addresses of the generator all the same.

Take `torn` alone for a system that draws one half of the RAM while it writes the
other: it names the first byte that breaks this. Take `torn --moments` for any
other system, with one buffer or many: it says whether each run is consistent, or
mixes two states of memory.

A half of the RAM is being drawn from the first word that a run fetched on, if
that is word 000, a jump to the half, until the run ends. Half 0 is bytes 002 to
3FF, half 1 is bytes 402 to 7FF.

Standard output: `torn at line N: wrote HHH HH` for the first byte that is
written in the half being drawn, and on a line of its own what was seen so far;
else `not torn: R runs, D drew a half, H halted, W writes`. Where no run drew a
half, nothing could be torn, and it is `no run drew a half: ..`. Usual causes: the
log omits word zero after `started`, or swaps its bytes. Lines are numbered from 1.
Nothing is judged after the first line that is torn or at fault.

With `--moments` it is `torn at line N: ..` for the first finished run that is
mixed: at no moment had memory all that it read, with none of it changed between
that moment and its reading. A byte that comes back has changed. Line N, which is
shown, is the read that ruled out the last moment. It is
`line N reads what was not written: ..` for the first line that reads another byte
than the log told last of it: of the RAM, of the ROM, or of the low byte that was
told of this very word. Else it is `whole: R runs, H halted, J judged`, where H
runs came to a line `halted`, and J of these had fetched past word zero: a low byte
or a word at another word address than 000. Where none had, it is `no run to judge:
..`, as word zero alone doesn't show what was drawn. `halted` tells no word, so the
log before it is judged. After `reset`, which may be one of the whole system,
nothing is known of memory. A byte that is written before the log tells what stood
there counts as changed.

With `--moments --all` there is a line `torn at line N: ..` for each such run, and
at the end `in all: R runs, H halted, T torn`, or what is said where none is torn.
It stops at a read that contradicts the log: something unlogged wrote that byte.
At a fault the lines before it are written.

Fault: `syntax at line N`. After the number stands the text of the line, and further
lines tell what was expected and what is known of the lines before it. The status is
0 for `not torn` and `whole`, and 1 for all else that is said of a log.

Example:
  $ printf 'started\\nfetched 000 E201\\nwrote 402 90\\n' | dvg torn
  torn at line 3: wrote 402 90
  so far: 1 runs, 1 drew a half, 0 halted, 1 writes
  $ printf 'started\\nfetched 000 E201\\nwrote 4402 90\\n' | dvg torn --base 4000
  torn at line 3: wrote 402 90
  so far: 1 runs, 1 drew a half, 0 halted, 1 writes
  $ printf 'started\\nfetched 000 E201\\nhalted\\nwrote 402 90\\n' | dvg torn
  not torn: 1 runs, 1 drew a half, 1 halted, 1 writes
  $ printf 'started\\nlow 1FF 05\\nhalted\\n' | dvg torn --moments
  whole: 1 runs, 1 halted, 1 judged

What is wrong with an input, and what to do: `dvg explain < INPUT`.";

/// How `render` is called.
pub(crate) const RENDER_USAGE: &str = "dvg render [--check] [--scale N] [--rate N] < SKETCH";

/// The input and output of `render`.
pub(crate) const RENDER: &str =
    "Standard input: a sketch as text, at most 1,048,576 bytes, with the operations of
its ROM and of its frames; `dvg help lay` tells it. A draft is a sketch, too.

Standard output: one SVG, in which the frames are shown in turn, and then from the
first one again. At 100 percent a screen unit is a pixel.

With `--check` it is a line for each frame instead, as `dvg check --bound` writes
it of a draft, after the frame's name and a colon, if it has one. Where the run of
the frame fetches at most 65,536 words, the line goes on with its vectors, its other
instructions, and how many microseconds the arcade emulator counts for all of them:
2^(s+1) * 8 / 12.096 + 4 for a vector of an effective scale s of 0 to 9, and 4 for
each other instruction and vector. Nothing is said of real hardware. `--scale` and
`--rate` have no effect then. The status is 1 where a frame may not be drawn.

Without `--check` nothing is written of a sketch with such a frame: standard error
tells the line at fault, or the word of the ROM and the name before it, with the
fault, and the status is 1. The same happens if a frame takes more than 65,536
words to draw.

Faults of the text: those that `dvg help lay` tells.

Example:
  $ printf 'labs 512 400 0\\nvctr 9 -100 100 7\\nhalt\\n' | dvg render --check
  ok 5 words 6 fetches, 1 vectors, 3 other instructions, 693 microseconds in the emulator
  $ printf 'labs 512 400 0\\nvctr 9 -100 100 7\\nhalt\\n' | dvg render | grep path
  <path d=\"M262144 204800l-51200 51200\" opacity=\".60\"/>

What is wrong with an input, and what to do: `dvg explain < INPUT`.";

/// How `lay` is called.
pub(crate) const LAY_USAGE: &str =
    "dvg lay [--half 0|1 | --table | --rom | --equates | --draft] < SKETCH";

/// The input and output of `lay`.
pub(crate) const LAY: &str = "Standard input: a sketch as text, at most 1,048,576 bytes: a draft, as
`dvg help check` tells it, with names, several frames and operations of the ROM.

  map N             as in a draft; such lines stand before all others
  rom HHH HHHH ..
  .frame [NAME]     begins a frame, which may have a name. What stands before
                    the first `.frame` and `.rom` is a frame, too
  .rom [HHH]        begins operations of the ROM at this word, or at the first
                    word after all that were given; the ROM's first is 400 with
                    `map 4096`, and else 800
  NAME:             names the next operation; one may stand on the same line
  labs X Y S ..     an operation as in a draft, at most 511 in a frame
  call NAME         call an operation of this frame; below `.rom`, of the ROM.
  call N            A frame may also tell its number
  jump NAME         go on there
  jump N
  callrom NAME      call an operation of the ROM, or the word at an address
  callrom HHH
  jumprom NAME      go on there
  jumprom HHH

A name is a letter and then letters, digits and `_`, at most 32 bytes, and not
three hexadecimal digits. Each stands once in its frame, in the ROM, or among the
frames. Spaces and tabs part words, a `#` begins a comment, and capitals are
small letters.

Standard output, by one option at most:

  --half 0|1        the bytes of each frame as it lies in this half, the low byte
                    of each word first, one frame after the other; half 0 begins
                    at word 001, half 1 at 201. Without an option it is half 0
  --table           text for the assembler ca65: of each frame its name as a
                    label, or `frame_N` with its number from 0, the number of its
                    words, and the words of each operation as it lies in half 0
  --rom             the 2,048 or 4,096 bytes of the ROM, where D000 is each word
                    that the sketch doesn't give
  --equates         a line `NAME = $HHH` for each name of the ROM: its address
  --draft           the lines of the ROM, with eight words each, but for lines of
                    D000 alone, and each frame as a draft without names. One frame
                    stands as `check` reads it, and several as `play` does, each
                    between `offer` and `end`

Nothing is written of a sketch with a frame that may not be drawn: standard error
tells the line at fault, or the word of the ROM and the name before it, with the
fault that `dvg check` would tell, and the status is 1. So it is with `--table`
where a frame calls a word below 400 by `callrom`, or jumps there. With `--draft`
no frame is checked: `check` and `play` do that.

Faults of the text: `too long` for more than 1,048,576 bytes, and of the first
line at fault the first of these:

  syntax at line N             it is none of these, or stands where it may not
  name given again at line N   its name is given before
  full at line N               it has operation 512 of its frame
  out of rom at line N         it begins before the ROM's first word, or goes past
                               C00
  overlap at line N            it lies on a word of another `.rom`
  unknown name at line N       it uses a name that isn't given in its frame or in
                               the ROM; reported only if no line has another fault

Lines are numbered from 1. After the number stands the text of the line, and a
second line tells what was expected.

Example:
  $ printf 'labs 512 400 0\\nvctr 9 -100 100 7\\nhalt\\n' | dvg lay --table
  frame_0:
          .word 5
          .word $A190, $0200 ; labs 512 400 0
          .word $9064, $7464 ; vctr 9 -100 100 7
          .word $B000 ; halt
  $ printf '.rom 8A0\\ndash: svec 2 1 1 7\\nreturn\\n' | dvg lay --equates
  dash = $8A0
  $ printf 'labs 512 400 0\\nagain: jump over\\nover: halt\\n' | dvg lay --draft
  labs 512 400 0
  jump 2
  halt

What is wrong with an input, and what to do: `dvg explain < INPUT`.";

/// The input and output of `explain`.
pub(crate) const EXPLAIN: &str = "Standard input: any input of `dvg`, at most 1,048,576 bytes.

Standard output: what is wrong first, with its line, what was expected there, and
what to do; or what is odd, and which commands take the input. The last line is
`kind: KIND, ..`, where KIND is words, draft, sketch, trace, dump or log, and
`accepted` or `something is wrong` follows; or `kind: none`.

An input is accepted if the command takes it that reads this kind, and of a log,
if `dvg torn` says that it isn't torn. The status is 0 then, and else 1.

Example:
  $ printf 'labs 512 400 0\\nvctr 9 -100 100 7\\n' | dvg explain
  line 2: vctr 9 -100 100 7
  it is the last operation, and one must come after it
  do: end with halt, return or a jump
  fault 5 runs off 1
  kind: draft, something is wrong";

/// How `game` is called.
pub(crate) const GAME_USAGE: &str = "dvg game [--notes] < GAME";

/// The input and output of `game`.
pub(crate) const GAME: &str =
    "Standard input: a game for the board of Asteroids, 8,192 bytes: the 2,048 of its
vector ROM, and then the 6,144 of its program, from 6800 to 7FFF.

Standard output: one of three verdicts.
  no run of these bytes tears a picture             status 0
  refused: and a line for each instruction that breaks a rule, with its address,
  the rule, and what to do, the causes first        status 1
  keeps to the rules, but not all that it offers and puts is seen   status 3
With `--notes` the notes of the program follow, a line for each instruction, and
then each table that it offers, and each word that it puts. A note has the level;
how many bytes it has pushed, and may still push; how many instructions the NMI
may still do; what A, X, Y and the bytes that it pushed hold of the registers
where the NMI came; and `awake`, where dvg_reset was called, `blank`, where a
frame may be empty, and `ends`, where it may be so at the RTS.

Faults: `game size N` for another number of bytes.

Example:
  $ cat build/rom build/game.program | dvg game";
