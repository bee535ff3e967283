//! Command lines and what is answered to them.
use crate::tools::{INFOS, PICTURES, SELECTIONS, shown_info, shown_picture, shown_selection};
use aig_command::{
    BadStates, Command, CommandLine, Invariant, Miter, Names, Property, Reach, Sim, SolverFile,
    ToAig, Unroll, UnrolledForm, Usage, command,
};
use std::alloc::{AllocError, Global};
use std::test::Fail;

/// Arguments after the program's name, and what they ask for: the options of the conversion, its
/// limit, its source and its destination, and before these whether the disk is to have it. `<>` is a
/// name of no bytes.
const CONVERSIONS: &str = "\
aigtoaig => 2147483647 - -;\
aigtoaig a.aig => 2147483647 a.aig -;\
aigtoaig - b.aig => 2147483647 - b.aig;\
aigtoaig a.aag - => 2147483647 a.aag -;\
aigtoaig a.aig b.aag => ascii 2147483647 a.aig b.aag;\
aigtoaig a.aag .aag => ascii 2147483647 a.aag .aag;\
aigtoaig a.aig b.AAG => 2147483647 a.aig b.AAG;\
aigtoaig a.aig aag => 2147483647 a.aig aag;\
aigtoaig a.aig b.aag.aig => 2147483647 a.aig b.aag.aig;\
aigtoaig --ascii - b.aig => ascii 2147483647 - b.aig;\
aigtoaig - --strip b.aig --ascii => ascii strip 2147483647 - b.aig;\
aigtoaig --keep-map => keep-map 2147483647 - -;\
aigtoaig --undo-map --strip a b => strip undo-map 2147483647 a b;\
aigtoaig --outputs-as-bad => outputs-as-bad 2147483647 - -;\
aigtoaig --strip a --outputs-as-bad b.aag => ascii strip outputs-as-bad 2147483647 a b.aag;\
aigtoaig --justice-as-bad 0 a b.aag => ascii justice-as-bad 0 2147483647 a b.aag;\
aigtoaig a --strip --justice-as-bad=2147483647 => strip justice-as-bad 2147483647 2147483647 a -;\
aigtoaig --simplify => simplify 2147483647 - -;\
aigtoaig --undo-map a --simplify --strip b.aag => ascii strip undo-map simplify 2147483647 a b.aag;\
aigtoaig --simplify --outputs-as-bad a => outputs-as-bad simplify 2147483647 a -;\
aigtoaig --justice-as-bad 1 --simplify => justice-as-bad 1 simplify 2147483647 - -;\
aigtoaig --sync a b.aag => sync ascii 2147483647 a b.aag;\
aigtoaig - --strip b --sync => sync strip 2147483647 - b;\
aigtoaig -- --sync b => 2147483647 --sync b;\
aigtoaig --max-var 0 => 0 - -;\
aigtoaig a --max-var=2147483647 b => 2147483647 a b;\
aigtoaig --max-var +007 => 7 - -;\
aigtoaig a.GZ => 2147483647 a.GZ -;\
aigtoaig a.gz.aig gz => 2147483647 a.gz.aig gz;\
aigtoaig --force a => force 2147483647 a -;\
aigtoaig a --ascii --force b --sync => sync force ascii 2147483647 a b;\
aigtoaig help => 2147483647 help -;\
aigtoaig a <> => 2147483647 a <>;\
aigtoaig -- --ascii --help => 2147483647 --ascii --help;\
aigtoaig --strip -- - -x.aag => ascii strip 2147483647 - -x.aag";

/// Arguments after the program's name, and what they ask for: the options of the simulation, its
/// limit, its model and its stimulus or its witness file.
const SIMULATIONS: &str = "\
aigsim m => 2147483647 m -;\
aigsim m - => 2147483647 m -;\
aigsim - s => 2147483647 - s;\
aigsim m s => 2147483647 m s;\
aigsim m m => 2147483647 m m;\
aigsim --properties --max-var 7 m s => properties 7 m s;\
aigsim m --properties s => properties 2147483647 m s;\
aigsim --batch m => batch 2147483647 m -;\
aigsim - s --batch => batch 2147483647 - s;\
aigsim --batch --properties m s => batch properties 2147483647 m s;\
aigsim --properties m --batch --max-var 7 s => batch properties 7 m s;\
aigsim m s --max-var=0 => 0 m s;\
aigsim --max-var 2147483647 m => 2147483647 m -;\
aigsim m --max-var +007 => 7 m -;\
aigsim - <> => 2147483647 - <>;\
aigsim <> => 2147483647 <> -;\
aigsim m.aag s.gzip => 2147483647 m.aag s.gzip;\
aigsim aigtoaig help => 2147483647 aigtoaig help;\
aigsim -- --properties --help => 2147483647 --properties --help;\
aigsim --batch -- - --batch => batch 2147483647 - --batch;\
aigsim --properties -- -m => properties 2147483647 -m -;\
aigsim --witness m => witness 2147483647 m -;\
aigsim --witness m - => witness 2147483647 m -;\
aigsim - --witness w => witness 2147483647 - w;\
aigsim m w --witness --max-var 7 => witness 7 m w;\
aigsim --witness m w.zs => witness 2147483647 m w.zs;\
aigsim --witness -- --batch --properties => witness 2147483647 --batch --properties;\
aigsim --batch -- m --witness => batch 2147483647 m --witness;\
aigsim --vcd m => vcd 2147483647 m -;\
aigsim - s --vcd --max-var 7 --batch => batch vcd 7 - s;\
aigsim --vcd m w --witness => witness vcd 2147483647 m w;\
aigsim --witness - w --vcd --max-var 7 => witness vcd 7 - w;\
aigsim --vcd -- --properties --witness => vcd 2147483647 --properties --witness";

/// Arguments after the program's name, and what they ask for: the frames of the unrolling, what is
/// written, its limit, its source and its destination.
const UNROLLINGS: &str = "\
aigunroll --frames 1 => 1 2147483647 - -;\
aigunroll --frames 1000000 => 1000000 2147483647 - -;\
aigunroll --frames=20 a.aig => 20 2147483647 a.aig -;\
aigunroll --frames 01 => 1 2147483647 - -;\
aigunroll --frames +0000020 => 20 2147483647 - -;\
aigunroll a.aig --frames 2 b.aig => 2 2147483647 a.aig b.aig;\
aigunroll a.aig --frames 2 b.aag --sync => sync 2 ascii 2147483647 a.aig b.aag;\
aigunroll a.aig b.aag --frames 2 => 2 ascii 2147483647 a.aig b.aag;\
aigunroll --frames 2 - b.aag => 2 ascii 2147483647 - b.aag;\
aigunroll --frames 2 a.aag => 2 2147483647 a.aag -;\
aigunroll --frames 2 a.aag b.AAG => 2 2147483647 a.aag b.AAG;\
aigunroll --frames 2 a.aig aag => 2 2147483647 a.aig aag;\
aigunroll --ascii --frames 2 - - => 2 ascii 2147483647 - -;\
aigunroll --ascii --frames 2 a b.aig => 2 ascii 2147483647 a b.aig;\
aigunroll --max-var 7 --frames 3 => 3 7 - -;\
aigunroll --frames 3 --max-var=0 a => 3 0 a -;\
aigunroll --frames 2 a.xzz => 2 2147483647 a.xzz -;\
aigunroll --frames 2 --force => force 2 2147483647 - -;\
aigunroll --frames 2 aigsim help => 2 2147483647 aigsim help;\
aigunroll --frames 2 - <> => 2 2147483647 - <>;\
aigunroll --frames 2 -- --frames --help => 2 2147483647 --frames --help;\
aigunroll --simplify --frames 2 a b.aag => 2 ascii simplify 2147483647 a b.aag;\
aigunroll --frames 2 --cnf --bad 0 --simplify => 2 clauses of 0 simplify 2147483647 - -;\
aigunroll --frames 1 --cnf => 1 clauses of any 2147483647 - -;\
aigunroll --cnf --frames 2 a.aig b.aag => 2 clauses of any 2147483647 a.aig b.aag;\
aigunroll --frames 2 --bad 0 --cnf - b => 2 clauses of 0 2147483647 - b;\
aigunroll --cnf a --bad=+07 --frames 2 --max-var 7 => 2 clauses of 7 7 a -;\
aigunroll --frames 2 --cnf --bad 2147483647 => 2 clauses of 2147483647 2147483647 - -;\
aigunroll --frames 2 --justice 0 --cnf - b => 2 clauses of justice 0 2147483647 - b;\
aigunroll --cnf a --justice=+07 --frames 2 --max-var 7 => 2 clauses of justice 7 7 a -;\
aigunroll --frames 2 --cnf -- --ascii --bad => 2 clauses of any 2147483647 --ascii --bad";

/// Arguments after the program's name, and what they ask for: the frames, the bad state, the limit,
/// the model, what the solver wrote and in which file, and the destination.
const REACHINGS: &str = "\
aigunroll --frames 1 --answer a m => 1 any 2147483647 m answer a -;\
aigunroll --frames 1000000 --answer=a m w => 1000000 any 2147483647 m answer a w;\
aigunroll --frames 1 --justice 2 --answer a m => 1 justice 2 2147483647 m answer a -;\
aigunroll --answer - --frames 2 m => 2 any 2147483647 m answer - -;\
aigunroll --answer a --simplify --frames 2 m => 2 any simplify 2147483647 m answer a -;\
aigunroll --frames 2 --answer a => 2 any 2147483647 - answer a -;\
aigunroll --frames 2 - w --answer a => 2 any 2147483647 - answer a w;\
aigunroll --frames 2 --answer a m w.aag => 2 any 2147483647 m answer a w.aag;\
aigunroll --frames 2 --answer agz mgz => 2 any 2147483647 mgz answer agz -;\
aigunroll --frames 2 --bad 0 --answer a m => 2 0 2147483647 m answer a -;\
aigunroll --answer a --bad=2147483647 m --frames 2 => 2 2147483647 2147483647 m answer a -;\
aigunroll --max-var 7 --frames 2 --answer m m m => 2 any 7 m answer m m;\
aigunroll --frames 2 --answer <> => 2 any 2147483647 - answer <> -;\
aigunroll --frames 2 --answer a -- --cnf --ascii => 2 any 2147483647 --cnf answer a --ascii;\
aigunroll --frames 1 --refutation p m => 1 any 2147483647 m refutation p -;\
aigunroll --refutation=p --frames 1000000 m r => 1000000 any 2147483647 m refutation p r;\
aigunroll --frames 1 --refutation p --justice 2 m \
=> 1 justice 2 2147483647 m refutation p -;\
aigunroll --refutation - --frames 2 m => 2 any 2147483647 m refutation - -;\
aigunroll --frames 2 --refutation p => 2 any 2147483647 - refutation p -;\
aigunroll --frames 2 --lrat --refutation p => 2 any 2147483647 - lrat p -;\
aigunroll --simplify --frames 2 --lrat --refutation p => 2 any simplify 2147483647 - lrat p -;\
aigunroll --frames 2 --refutation p m --simplify => 2 any simplify 2147483647 m refutation p -;\
aigunroll --refutation - --frames 2 m --lrat => 2 any 2147483647 m lrat - -;\
aigunroll --frames 2 --refutation p m -- --lrat => 2 any 2147483647 m refutation p --lrat;\
aigunroll --frames 2 - r --refutation p => 2 any 2147483647 - refutation p r;\
aigunroll --frames 2 --refutation p.bz m.bz r.aag => 2 any 2147483647 m.bz refutation p.bz r.aag;\
aigunroll --frames 2 --bad 0 --refutation p m => 2 0 2147483647 m refutation p -;\
aigunroll --refutation p --bad=2147483647 m --frames 2 => 2 2147483647 2147483647 m refutation p -;\
aigunroll --max-var 7 --frames 2 --refutation m m m => 2 any 7 m refutation m m;\
aigunroll --frames 2 --refutation <> => 2 any 2147483647 - refutation <> -;\
aigunroll --frames 2 --refutation answer --bad 1 => 2 1 2147483647 - refutation answer -;\
aigunroll --frames 2 --refutation p -- --bad --cnf => 2 any 2147483647 --bad refutation p --cnf";

/// Arguments after the program's name, and what they ask for: the bad state, the limit, the model,
/// its invariant, what comes of both and in which file, and the destination.
const PROVINGS: &str = "\
aigunroll --invariant i --cnf m => any 2147483647 m i clauses -;\
aigunroll --invariant i --cnf --justice 3 m => justice 3 2147483647 m i clauses -;\
aigunroll --cnf --invariant=i m d => any 2147483647 m i clauses d;\
aigunroll --simplify --cnf --invariant i m => any simplify 2147483647 m i clauses -;\
aigunroll --invariant i --refutation p --simplify m \
=> any simplify 2147483647 m i refutation p -;\
aigunroll --invariant - --cnf m => any 2147483647 m - clauses -;\
aigunroll --invariant i --cnf => any 2147483647 - i clauses -;\
aigunroll --cnf - d --invariant i => any 2147483647 - i clauses d;\
aigunroll --invariant i.zstd --cnf m.zstd d.aag => any 2147483647 m.zstd i.zstd clauses d.aag;\
aigunroll --invariant i --bad 0 --cnf m => 0 2147483647 m i clauses -;\
aigunroll --max-var 7 --invariant m --cnf --bad=2147483647 m m => 2147483647 7 m m clauses m;\
aigunroll --invariant <> --cnf => any 2147483647 - <> clauses -;\
aigunroll --invariant i --cnf -- --frames --refutation \
=> any 2147483647 --frames i clauses --refutation;\
aigunroll --invariant i --refutation p m => any 2147483647 m i refutation p -;\
aigunroll --refutation=p --invariant=i m d => any 2147483647 m i refutation p d;\
aigunroll --invariant - --refutation p m => any 2147483647 m - refutation p -;\
aigunroll --refutation - --invariant i m => any 2147483647 m i refutation - -;\
aigunroll --invariant i --refutation p => any 2147483647 - i refutation p -;\
aigunroll --lrat --invariant i --refutation p m => any 2147483647 m i lrat p -;\
aigunroll - d --refutation p --invariant i => any 2147483647 - i refutation p d;\
aigunroll --invariant i.z --refutation p.z m.z d.aag \
=> any 2147483647 m.z i.z refutation p.z d.aag;\
aigunroll --bad 1 --max-var=0 --invariant m --refutation m m m => 1 0 m m refutation m m;\
aigunroll --invariant <> --refutation <> => any 2147483647 - <> refutation <> -;\
aigunroll --invariant frames --refutation cnf -- --cnf --ascii \
=> any 2147483647 --cnf frames refutation cnf --ascii";

/// Arguments after the program's name, and what they ask for: the options of the comparison, its
/// limit, both circuits and the destination.
const MITERS: &str = "\
aigmiter a b => 2147483647 a b -;\
aigmiter a b m.aig => 2147483647 a b m.aig;\
aigmiter a b m.aag => ascii 2147483647 a b m.aag;\
aigmiter --ascii a b - => ascii 2147483647 a b -;\
aigmiter - b m => 2147483647 - b m;\
aigmiter a - m => 2147483647 a - m;\
aigmiter a.XZ a.XZ a.aig => 2147483647 a.XZ a.XZ a.aig;\
aigmiter a b --force => force 2147483647 a b -;\
aigmiter --by-name a.aag b.aag => by-name 2147483647 a.aag b.aag -;\
aigmiter a --max-var=7 b --by-name --sync m.aag => sync ascii by-name 7 a b m.aag;\
aigmiter --simplify a b m.aag => ascii simplify 2147483647 a b m.aag;\
aigmiter a --by-name b --simplify => by-name simplify 2147483647 a b -;\
aigmiter a <> => 2147483647 a <> -;\
aigmiter -- --by-name --sync => 2147483647 --by-name --sync -;\
aigmiter aigtoaig help => 2147483647 aigtoaig help -";

/// Arguments after the program's name, and why they are refused (`words` where `clap` refuses
/// them); or that they ask for help.
const REFUSALS: &str = "\
aigtoaig --keep-map --ascii => --keep-map needs binary output;\
aigtoaig --keep-map - b.aag => --keep-map needs binary output;\
aigtoaig --keep-map --ascii --strip => --keep-map needs binary output;\
aigtoaig --keep-map --strip => --keep-map excludes --strip;\
aigtoaig --keep-map --strip --undo-map => --keep-map excludes --strip;\
aigtoaig --undo-map --keep-map => --keep-map excludes --undo-map;\
aigtoaig --keep-map --undo-map - x.gz => --keep-map excludes --undo-map;\
aigtoaig --keep-map --simplify => --keep-map excludes --simplify;\
aigtoaig --simplify a b.aag --keep-map => --keep-map needs binary output;\
aigtoaig --simplify --keep-map --strip => --keep-map excludes --strip;\
aigtoaig --simplify --keep-map --undo-map => --keep-map excludes --undo-map;\
aigtoaig --outputs-as-bad --simplify --keep-map => --keep-map excludes --simplify;\
aigtoaig --justice-as-bad 1 --keep-map --simplify => --keep-map excludes --simplify;\
aigtoaig --keep-map --simplify - x.gz => --keep-map excludes --simplify;\
aigtoaig --simplify - x.gz => compressed output is not supported: use aiger COMMAND .. - | gzip > FILE.gz;\
aigunroll --simplify => --frames or --invariant is needed;\
aigunroll --simplify --invariant i => --invariant needs --cnf or --refutation;\
aigtoaig --outputs-as-bad --strip --keep-map => --keep-map excludes --strip;\
aigtoaig --outputs-as-bad --undo-map --keep-map => --keep-map excludes --undo-map;\
aigtoaig --outputs-as-bad --keep-map => --outputs-as-bad excludes --keep-map;\
aigtoaig --undo-map --outputs-as-bad - x.gz => --outputs-as-bad excludes --undo-map;\
aigtoaig --outputs-as-bad --strip - x.gz => compressed output is not supported: use aiger COMMAND .. - | gzip > FILE.gz;\
aigtoaig --justice-as-bad 1 --outputs-as-bad => --justice-as-bad excludes --outputs-as-bad, --keep-map and --undo-map;\
aigtoaig --keep-map --justice-as-bad 1 => --justice-as-bad excludes --outputs-as-bad, --keep-map and --undo-map;\
aigtoaig --justice-as-bad 1 --undo-map => --justice-as-bad excludes --outputs-as-bad, --keep-map and --undo-map;\
aigtoaig --justice-as-bad 1 - x.gz => compressed output is not supported: use aiger COMMAND .. - | gzip > FILE.gz;\
aigtoaig - x.aig.gz => compressed output is not supported: use aiger COMMAND .. - | gzip > FILE.gz;\
aigtoaig --ascii - .gz => compressed output is not supported: use aiger COMMAND .. - | gzip > FILE.gz;\
aigtoaig - x.aag.xz => compressed output is not supported: use aiger COMMAND .. - | xz > FILE.xz;\
aigtoaig --force - x.zst => compressed output is not supported: use aiger COMMAND .. - | zstd > FILE.zst;\
aigtoaig - x.bz2 => compressed output is not supported: use aiger COMMAND .. - | bzip2 > FILE.bz2;\
aigtoaig - x.gz.bz2 => compressed output is not supported: use aiger COMMAND .. - | bzip2 > FILE.bz2;\
aigtoaig a.gz => compressed input is not supported: use gzip -dc FILE.gz | aiger COMMAND .. - ..;\
aigtoaig .gz b.aag => compressed input is not supported: use gzip -dc FILE.gz | aiger COMMAND .. - ..;\
aigtoaig a.gz b.xz => compressed output is not supported: use aiger COMMAND .. - | xz > FILE.xz;\
aigtoaig --keep-map --strip a.gz => --keep-map excludes --strip;\
aigtoaig --sync a.gz => --sync needs the name of a destination;\
aigtoaig --forc a => words;\
aigtoaig --force --force a => words;\
aigsim --force m => words;\
aigsim m.gz => compressed input is not supported: use gzip -dc FILE.gz | aiger COMMAND .. - ..;\
aigsim m s.xz => compressed input is not supported: use xz -dc FILE.xz | aiger COMMAND .. - ..;\
aigsim m.bz2 s.zst => compressed input is not supported: use bzip2 -dc FILE.bz2 | aiger COMMAND .. - ..;\
aigsim --witness m w.zst => compressed input is not supported: use zstd -dc FILE.zst | aiger COMMAND .. - ..;\
aigsim --vcd --properties m.gz => --vcd excludes --properties;\
aigunroll --frames 2 a.gz => compressed input is not supported: use gzip -dc FILE.gz | aiger COMMAND .. - ..;\
aigunroll --frames 2 --answer a.xz - \
=> compressed input is not supported: use xz -dc FILE.xz | aiger COMMAND .. - ..;\
aigunroll --frames 2 --refutation p.zst m.gz \
=> compressed input is not supported: use gzip -dc FILE.gz | aiger COMMAND .. - ..;\
aigunroll --frames 2 --refutation p.zst m \
=> compressed input is not supported: use zstd -dc FILE.zst | aiger COMMAND .. - ..;\
aigunroll --invariant i.bz2 --cnf m => compressed input is not supported: use bzip2 -dc FILE.bz2 | aiger COMMAND .. - ..;\
aigunroll --invariant i --refutation p.xz m \
=> compressed input is not supported: use xz -dc FILE.xz | aiger COMMAND .. - ..;\
aigmiter a.gz - => compressed input is not supported: use gzip -dc FILE.gz | aiger COMMAND .. - ..;\
aigmiter - b.xz => compressed input is not supported: use xz -dc FILE.xz | aiger COMMAND .. - ..;\
aigsim - => model and stimulus are both standard input;\
aigsim - - => model and stimulus are both standard input;\
aigsim --properties --max-var 7 -- - => model and stimulus are both standard input;\
aigsim --batch - => model and stimulus are both standard input;\
aigsim --witness - => model and stimulus are both standard input;\
aigsim --witness - - => model and stimulus are both standard input;\
aigsim --witness --batch - => model and stimulus are both standard input;\
aigsim --properties - --witness - => model and stimulus are both standard input;\
aigsim --witness --batch m => --witness stands alone;\
aigsim --batch --witness m w => --witness stands alone;\
aigsim --witness --properties m => --witness stands alone;\
aigsim --properties - w --witness => --witness stands alone;\
aigsim --witness --batch --properties m => --witness stands alone;\
aigsim --max-var 0 --witness --batch m w.gz => --witness stands alone;\
aigsim --vcd - => model and stimulus are both standard input;\
aigsim --vcd --witness --properties - => model and stimulus are both standard input;\
aigsim --vcd --witness --batch m => --witness stands alone;\
aigsim --properties --witness --vcd m => --witness stands alone;\
aigmiter - - => both circuits are standard input;\
aigmiter --by-name --sync - - m.gz => both circuits are standard input;\
aigmiter a b m.gz => compressed output is not supported: use aiger COMMAND .. - | gzip > FILE.gz;\
aigmiter --sync a b => --sync needs the name of a destination;\
aiginfo x.xz y => compressed input is not supported: use xz -dc FILE.xz | aiger COMMAND .. - ..;\
aigselect --bad 0 x.gz => compressed input is not supported: use gzip -dc FILE.gz | aiger COMMAND .. - ..;\
aigselect --force x.gz => --output, --bad or --justice is needed;\
aiginfo --sync => --sync needs the name of a destination;\
aiginfo --json - x.gz => compressed output is not supported: use aiger COMMAND .. - | gzip > FILE.gz;\
aigselect => --output, --bad or --justice is needed;\
aigselect --sync a b.gz => --output, --bad or --justice is needed;\
aigselect a -- --bad => --output, --bad or --justice is needed;\
aigselect --bad 1 a b.gz => compressed output is not supported: use aiger COMMAND .. - | gzip > FILE.gz;\
aigselect --bad 1 --sync a => --sync needs the name of a destination;\
aigtodot --all-steps => --all-steps needs --cone;\
aigtodot --all-steps a b.gz => --all-steps needs --cone;\
aigtodot --cone b0 a b.gz => compressed output is not supported: use aiger COMMAND .. - | gzip > FILE.gz;\
aigtodot --cone b0 --sync => --sync needs the name of a destination;\
aigtodot --cone b => --cone needs o, b, c, j or f and a position: o0 is the first output, b0 the first bad state;\
aigtodot --cone <> --all-steps => --cone needs o, b, c, j or f and a position: o0 is the first output, b0 the first bad state;\
aigtodot --cone 0 => --cone needs o, b, c, j or f and a position: o0 is the first output, b0 the first bad state;\
aigtodot --cone i0 => --cone needs o, b, c, j or f and a position: o0 is the first output, b0 the first bad state;\
aigtodot --cone l0 => --cone needs o, b, c, j or f and a position: o0 is the first output, b0 the first bad state;\
aigtodot --cone B0 => --cone needs o, b, c, j or f and a position: o0 is the first output, b0 the first bad state;\
aigtodot --cone bb0 => --cone needs o, b, c, j or f and a position: o0 is the first output, b0 the first bad state;\
aigtodot --cone b0x => --cone needs o, b, c, j or f and a position: o0 is the first output, b0 the first bad state;\
aigtodot --cone o4294967296 a b.gz => --cone needs o, b, c, j or f and a position: o0 is the first output, b0 the first bad state;\
aigtoaig --sync => --sync needs the name of a destination;\
aigtoaig --sync a => --sync needs the name of a destination;\
aigtoaig a --sync - => --sync needs the name of a destination;\
aigtoaig --sync --keep-map --ascii => --keep-map needs binary output;\
aigtoaig --sync - x.gz => compressed output is not supported: use aiger COMMAND .. - | gzip > FILE.gz;\
aigsim --properties --vcd m => --vcd excludes --properties;\
aigsim --batch --max-var 7 --vcd --properties - s => --vcd excludes --properties;\
aigunroll --frames 2 - x.aig.gz => compressed output is not supported: use aiger COMMAND .. - | gzip > FILE.gz;\
aigunroll --ascii --frames 2 a.aag .gz => compressed output is not supported: use aiger COMMAND .. - | gzip > FILE.gz;\
aigunroll --frames 2 --cnf --ascii => --cnf excludes --ascii;\
aigunroll --ascii --frames 2 --answer - --bad 1 --cnf - x.gz => --cnf excludes --ascii;\
aigunroll --frames 2 --answer a --cnf m => --answer excludes --cnf and --ascii;\
aigunroll --frames 2 --ascii --answer a m => --answer excludes --cnf and --ascii;\
aigunroll --frames 2 --cnf --bad 1 --answer - - x.gz => --answer excludes --cnf and --ascii;\
aigunroll --cnf --ascii --frames 2 --refutation p --answer a m => --cnf excludes --ascii;\
aigunroll --frames 2 --refutation p --answer a --ascii m => --answer excludes --cnf and --ascii;\
aigunroll --cnf --answer - --refutation - --frames 2 => --answer excludes --cnf and --ascii;\
aigunroll --frames 2 --refutation p --cnf m => --refutation excludes --cnf, --ascii and --answer;\
aigunroll --ascii --frames 2 --refutation p => --refutation excludes --cnf, --ascii and --answer;\
aigunroll --frames 2 --answer - --refutation - \
=> --refutation excludes --cnf, --ascii and --answer;\
aigunroll --refutation a --frames 2 --answer a m x.gz \
=> --refutation excludes --cnf, --ascii and --answer;\
aigunroll --frames 2 --bad 0 => --bad needs --cnf, --answer or --refutation;\
aigunroll --bad 7 --ascii --frames 2 - x.gz => --bad needs --cnf, --answer or --refutation;\
aigunroll --frames 2 --justice 0 => --justice needs --cnf, --answer or --refutation;\
aigunroll --frames 2 --justice 0 --lrat => --justice needs --cnf, --answer or --refutation;\
aigunroll --frames 2 --justice 1 -- --cnf => --justice needs --cnf, --answer or --refutation;\
aigunroll --frames 2 --justice 0 --bad 0 => --bad excludes --justice;\
aigunroll --frames 2 --cnf --bad 3 --justice 3 => --bad excludes --justice;\
aigunroll --invariant p --justice 0 --bad 0 --cnf m => --bad excludes --justice;\
aigunroll --justice 0 --cnf => --frames or --invariant is needed;\
aigunroll --invariant p --justice 0 m => --invariant needs --cnf or --refutation;\
aigunroll --frames 2 --lrat => --lrat needs --refutation;\
aigunroll --frames 2 --lrat --cnf m => --lrat needs --refutation;\
aigunroll --frames 2 --lrat --answer - => --lrat needs --refutation;\
aigunroll --invariant - --cnf --lrat - x.gz => --lrat needs --refutation;\
aigunroll --frames 2 --lrat -- --refutation p => --lrat needs --refutation;\
aigunroll --frames 2 --lrat --bad 0 => --bad needs --cnf, --answer or --refutation;\
aigunroll --frames 2 --lrat --sync => --lrat needs --refutation;\
aigunroll --frames 2 --sync => --sync needs the name of a destination;\
aigunroll --frames 2 --sync --answer - => --sync needs the name of a destination;\
aigunroll --frames 2 --sync --bad 0 => --bad needs --cnf, --answer or --refutation;\
aigunroll --frames 2 --bad 1 -- --cnf --answer => --bad needs --cnf, --answer or --refutation;\
aigunroll --frames 2 --bad 1 -- --refutation p => --bad needs --cnf, --answer or --refutation;\
aigunroll --frames 2 --answer - => model and answer are both standard input;\
aigunroll --frames 2 --answer - - => model and answer are both standard input;\
aigunroll --frames 2 --bad 1 --answer - - x.gz => model and answer are both standard input;\
aigunroll --frames 2 --refutation - => model and refutation are both standard input;\
aigunroll --frames 2 --refutation - - => model and refutation are both standard input;\
aigunroll --frames 2 --bad 1 --refutation - - x.gz => model and refutation are both standard input;\
aigunroll --refutation p --frames 2 m x.gz => compressed output is not supported: use aiger COMMAND .. - | gzip > FILE.gz;\
aigunroll => --frames or --invariant is needed;\
aigunroll a.aig b.aig => --frames or --invariant is needed;\
aigunroll - x.gz => --frames or --invariant is needed;\
aigunroll --ascii --max-var 7 => --frames or --invariant is needed;\
aigunroll --cnf => --frames or --invariant is needed;\
aigunroll --cnf --ascii --answer a --refutation p => --frames or --invariant is needed;\
aigunroll --answer a m => --frames or --invariant is needed;\
aigunroll --refutation p m => --frames or --invariant is needed;\
aigunroll --refutation - => --frames or --invariant is needed;\
aigunroll --bad 1 => --frames or --invariant is needed;\
aigunroll -- --frames 2 => --frames or --invariant is needed;\
aigunroll --cnf -- --invariant i => --frames or --invariant is needed;\
aigunroll --invariant i --cnf --ascii m => --cnf excludes --ascii;\
aigunroll --invariant i --answer a --cnf m => --answer excludes --cnf and --ascii;\
aigunroll --invariant i --frames 2 --refutation p --cnf m \
=> --refutation excludes --cnf, --ascii and --answer;\
aigunroll --invariant i --frames 2 => --invariant excludes --frames, --ascii and --answer;\
aigunroll --frames 1 --cnf --invariant i m \
=> --invariant excludes --frames, --ascii and --answer;\
aigunroll --invariant i --refutation p m --frames 1 \
=> --invariant excludes --frames, --ascii and --answer;\
aigunroll --ascii --invariant i m => --invariant excludes --frames, --ascii and --answer;\
aigunroll --answer a --invariant i m => --invariant excludes --frames, --ascii and --answer;\
aigunroll --frames 2 --bad 1 --invariant - - x.gz \
=> --invariant excludes --frames, --ascii and --answer;\
aigunroll --invariant i => --invariant needs --cnf or --refutation;\
aigunroll --invariant i m d.aag => --invariant needs --cnf or --refutation;\
aigunroll --bad 1 --invariant - - x.gz => --invariant needs --cnf or --refutation;\
aigunroll --invariant i -- --cnf => --invariant needs --cnf or --refutation;\
aigunroll --invariant - --cnf => model and invariant are both standard input;\
aigunroll --invariant - --cnf - x.gz => model and invariant are both standard input;\
aigunroll --invariant - --refutation p => model and invariant are both standard input;\
aigunroll --refutation - --invariant - - x.gz => model and invariant are both standard input;\
aigunroll --invariant i --refutation - => model and refutation are both standard input;\
aigunroll --refutation - --invariant i --bad 1 - x.gz \
=> model and refutation are both standard input;\
aigunroll --invariant - --refutation - m => invariant and refutation are both standard input;\
aigunroll --refutation - --invariant - m x.gz \
=> invariant and refutation are both standard input;\
aigunroll --invariant i --cnf m x.gz => compressed output is not supported: use aiger COMMAND .. - | gzip > FILE.gz;\
aigunroll --invariant i --bad 1 --refutation p - x.gz => compressed output is not supported: use aiger COMMAND .. - | gzip > FILE.gz;\
aigunroll --frames 2 --answer a m x.gz => compressed output is not supported: use aiger COMMAND .. - | gzip > FILE.gz;\
aigunroll --frames 2 --bad 1 --cnf - x.gz => compressed output is not supported: use aiger COMMAND .. - | gzip > FILE.gz;\
aigtoaig --help => help;\
aigtoaig -h => help;\
help => help;\
help aigtoaig => help;\
help aigsim => help;\
help aigunroll => help;\
help aigmiter => help;\
help aiginfo => help;\
help aigselect => help;\
help aigtodot => help;\
aigselect --help => help;\
aigtodot --all-steps -h => help;\
aiginfo --version => version;\
help help => help;\
-h help => help;\
--help => help;\
-h => help;\
aigtoaig --keep-map --ascii --help => help;\
aigtoaig --strip --help a b c => help;\
aigsim --help => help;\
aigsim -h => help;\
aigsim - --help => help;\
aigsim --properties m s --help t => help;\
aigsim --batch - --help => help;\
aigsim --witness --batch - --help => help;\
aigunroll --help => help;\
aigunroll -h => help;\
aigunroll --frames 2 - b.gz --help => help;\
aigunroll --cnf --ascii --help => help;\
aigunroll --answer - --refutation - --help => help;\
aigunroll --invariant - --ascii --help => help;\
aigtoaig a b c => words;\
aiginfo a b c => words;\
aiginfo --json --json => words;\
aiginfo --ascii => words;\
aiginfo --force => words;\
aigtodot --force => words;\
aiginfo --max-var x => words;\
aigselect --bad => words;\
aigselect --bad x => words;\
aigselect --bad=-1 => words;\
aigselect --bad 2147483648 => words;\
aigselect --bad 1 --bad x => words;\
aigselect --bad 1,2 => words;\
aigselect --bad 0 --ascii --ascii => words;\
aigselect --bad 0 a b c => words;\
aigselect --strip --bad 0 => words;\
aigtodot --cone => words;\
aigtodot --cone b0 --cone b1 => words;\
aigtodot --gates x => words;\
aigtodot --gates 2147483648 => words;\
aigtodot --gates 1 --gates 2 => words;\
aigtodot a b c => words;\
aigtodot --bad 0 => words;\
aiginf => words;\
aigtoaig --ascii --ascii => words;\
aigtoaig --max-var => words;\
aigtoaig --max-var 2147483648 => words;\
aigtoaig --max-var=-1 => words;\
aigtoaig --max-var= => words;\
aigtoaig --max-var x => words;\
aigtoaig --max-var 1 --max-var 2 => words;\
aigtoaig --asci => words;\
aigtoaig --ascii=yes => words;\
aigtoaig --simplify --simplify => words;\
aigtoaig --simplif => words;\
aigsim --simplify m => words;\
aigunroll --simplify=yes --frames 2 => words;\
aigtoaig --batch => words;\
aigtoaig --Help => words;\
aigtoaig -x => words;\
--version => version;\
-V => version;\
-V help => version;\
aigtoaig --version => version;\
aigtoaig -V => version;\
aigtoaig -Vx a => version;\
aigtoaig --versio => words;\
aigtoaig -v => words;\
aigtoaig --ascii a.aag b.aag c --version => words;\
aigtoaig -- --version => 2147483647 --version -;\
aigtoaig --help --version => help;\
aigtoaig --version --help => version;\
aigsim --version => version;\
aigunroll -V => version;\
aigtoaig --properties => words;\
aigtoaig --witness => words;\
aigtoaig --vcd => words;\
aigtoaig --frames 2 => words;\
aigsim => words;\
aigsim --properties => words;\
aigsim --batch => words;\
aigsim m s t => words;\
aigsim - - - => words;\
aigsim --properties --properties m => words;\
aigsim --properties=yes m => words;\
aigsim --propertie m => words;\
aigsim --batch --batch m => words;\
aigsim --batch --properties --batch m => words;\
aigsim --batch=yes m => words;\
aigsim --batch= m => words;\
aigsim --batc m => words;\
aigsim --Batch m => words;\
aigsim -b m => words;\
aigsim --batch m s t => words;\
aigsim m --max-var => words;\
aigsim m --max-var 2147483648 => words;\
aigsim m --max-var=-1 => words;\
aigsim m --max-var= => words;\
aigsim m --max-var x => words;\
aigsim m --max-var 1 --max-var 2 => words;\
aigsim --ascii m => words;\
aigsim --strip m => words;\
aigsim --keep-map m => words;\
aigsim --undo-map m => words;\
aigsim --outputs-as-bad m => words;\
aigsim --witness => words;\
aigsim --witness m w v => words;\
aigsim --witness --witness m => words;\
aigsim --witness --batch --witness m => words;\
aigsim --witness=yes m => words;\
aigsim --witness= m => words;\
aigsim --witnes m => words;\
aigsim --Witness m => words;\
aigsim -w m => words;\
aigsim --vcd => words;\
aigsim --vcd --vcd m => words;\
aigsim --vcd=yes m => words;\
aigsim --VCD m => words;\
aigsim --frames 2 m => words;\
aigsim -x => words;\
aigunroll --frames => words;\
aigunroll --frames= => words;\
aigunroll --frames 0 => words;\
aigunroll --frames 0 - x.gz => words;\
aigunroll --frames 1000001 => words;\
aigunroll --frames 4294967297 => words;\
aigunroll --frames=-1 => words;\
aigunroll --frames x => words;\
aigunroll --frames <> => words;\
aigunroll --frames 2x => words;\
aigunroll --frames 1 --frames 1 => words;\
aigunroll --frame 2 => words;\
aigunroll -k 2 => words;\
aigunroll --frames 2 --max-var 2147483648 => words;\
aigunroll --frames 2 --max-var => words;\
aigunroll --frames 2 --ascii --ascii => words;\
aigunroll --frames 2 --ascii=yes => words;\
aigunroll --frames 2 --strip => words;\
aigunroll --frames 2 --keep-map => words;\
aigunroll --frames 2 --undo-map => words;\
aigunroll --frames 2 --outputs-as-bad => words;\
aigunroll --frames 2 --properties => words;\
aigunroll --frames 2 --batch => words;\
aigunroll --frames 2 --witness => words;\
aigunroll --frames 2 --vcd => words;\
aigunroll --frames 0 --cnf => words;\
aigunroll --frames 2 --cnf --cnf => words;\
aigunroll --frames 2 --cnf=yes => words;\
aigunroll --frames 2 --CNF => words;\
aigunroll --frames 2 --answer => words;\
aigunroll --frames 2 --answer a --answer b m => words;\
aigunroll --frames 2 --answer a b c d => words;\
aigunroll --frames 2 --answers a m => words;\
aigunroll --frames 0 --refutation p m => words;\
aigunroll --frames 2 --refutation => words;\
aigunroll --frames 2 --refutation p --refutation q m => words;\
aigunroll --frames 2 --refutation p b c d => words;\
aigunroll --frames 2 --refute p m => words;\
aigunroll --frames 2 --refutation p --bad => words;\
aigunroll --frames 2 --refutation p --lrat --lrat m => words;\
aigunroll --frames 2 --refutation p --lrat=l m => words;\
aigunroll --invariant => words;\
aigunroll --cnf --invariant => words;\
aigunroll --invariant i --invariant j --cnf m => words;\
aigunroll --invariant i --cnf b c d => words;\
aigunroll --invariant i --cnf --cnf m => words;\
aigunroll --invariants i --cnf m => words;\
aigunroll -i i --cnf m => words;\
aigunroll --invariant i --frames 0 m => words;\
aigunroll --invariant i --cnf --bad 2147483648 => words;\
aigunroll --invariant i --refutation m --refutation m => words;\
aigunroll --frames 2 --cnf --bad => words;\
aigunroll --frames 2 --cnf --bad= => words;\
aigunroll --frames 2 --cnf --bad <> => words;\
aigunroll --frames 2 --cnf --bad x => words;\
aigunroll --frames 2 --cnf --bad=-1 => words;\
aigunroll --frames 2 --cnf --bad 2147483648 => words;\
aigunroll --frames 2 --cnf --bad 4294967296 => words;\
aigunroll --frames 2 --cnf --bad 1 --bad 1 => words;\
aigunroll --frames 2 --bad 2147483648 => words;\
aigtoaig --cnf => words;\
aigtoaig --bad 1 => words;\
aigtoaig --answer a m => words;\
aigtoaig --refutation p m => words;\
aigtoaig --invariant i m => words;\
aigsim --cnf m => words;\
aigsim --bad 1 m => words;\
aigsim --answer a m => words;\
aigsim --refutation p m => words;\
aigsim --lrat m => words;\
aigsim --invariant i m => words;\
aigunroll --frames 2 a b c => words;\
aigunroll --frames 2 - - - => words;\
help aigsom => words;\
help aigtoaig aigsim => words;\
help --version => words;\
help -h => words;\
Help => words;\
-x help => words;\
aigtoaig -a => words;\
aigsim m -r => words;\
aigtoai => words;\
aigsi => words;\
aigsimm m => words;\
AIGTOAIG => words;\
AIGSIM m => words;\
aigunrol --frames 2 => words;\
AIGUNROLL --frames 2 => words;\
--frames 2 aigunroll => words;\
--ascii aigtoaig => words;\
--properties aigsim m => words;\
--batch aigsim m => words;\
--witness aigsim m => words;\
<> => words";

/// The program's name and the arguments of a line, with one space between them.
fn words_of(alloc: Global, line: &str) -> Result<Vec<String>, AllocError> {
    let mut words = Vec::new(alloc);
    words.push(String::from_str(alloc, "aiger")?)?;
    for word in line.split(' ') {
        let word = if word == "<>" { "" } else { word };
        words.push(String::from_str(alloc, word)?)?;
    }
    Ok(words)
}

/// The file of this name, as a row shows it.
pub(crate) fn show_file(file: &Option<String>) -> &str {
    match file {
        Some(name) if name.is_empty() => "<>",
        Some(name) => name.as_str(),
        None => "-",
    }
}

fn simplify_word(simplify: bool) -> &'static str {
    if simplify { "simplify " } else { "" }
}

fn shown_bad_states(alloc: Global, bad_states: BadStates) -> Result<String, AllocError> {
    match bad_states {
        BadStates::Kept => Ok(String::new(alloc)),
        BadStates::Outputs => String::from_str(alloc, "outputs-as-bad "),
        BadStates::Justice(property) => format!(in alloc; "justice-as-bad {property} "),
    }
}

fn shown_conversion(alloc: Global, names: &Names, request: ToAig) -> Result<String, AllocError> {
    let ascii = if request.ascii { "ascii " } else { "" };
    let strip = if request.strip { "strip " } else { "" };
    let keep_map = if request.keep_map { "keep-map " } else { "" };
    let undo_map = if request.undo_map { "undo-map " } else { "" };
    let as_bad = shown_bad_states(alloc, request.bad_states)?;
    let simplify = simplify_word(request.simplify);
    let source = show_file(&names.model);
    let destination = show_file(&names.destination);
    let limit = request.max_var;
    let how = format!(in alloc; "{ascii}{strip}{keep_map}{undo_map}{as_bad}{simplify}")?;
    format!(in alloc; "{how}{limit} {source} {destination}")
}

fn shown_simulation(alloc: Global, names: &Names, request: Sim) -> Result<String, AllocError> {
    let batch = if request.batch { "batch " } else { "" };
    let properties = if request.properties {
        "properties "
    } else {
        ""
    };
    let witness = if request.witness { "witness " } else { "" };
    let vcd = if request.vcd { "vcd " } else { "" };
    let model = show_file(&names.model);
    let stimulus = show_file(&names.file);
    let limit = request.max_var;
    format!(in alloc; "{batch}{properties}{witness}{vcd}{limit} {model} {stimulus}")
}

/// The property, as a row shows it.
fn shown_property(alloc: Global, property: Property) -> Result<String, AllocError> {
    match property {
        Property::AnyBad => String::from_str(alloc, "any"),
        Property::Bad(number) => format!(in alloc; "{number}"),
        Property::Justice(number) => format!(in alloc; "justice {number}"),
    }
}

fn shown_form(alloc: Global, form: UnrolledForm) -> Result<String, AllocError> {
    match form {
        UnrolledForm::Binary => String::from_str(alloc, ""),
        UnrolledForm::Ascii => String::from_str(alloc, "ascii "),
        UnrolledForm::Clauses { property } => {
            let property = shown_property(alloc, property)?;
            format!(in alloc; "clauses of {property} ")
        }
    }
}

fn shown_unrolling(alloc: Global, names: &Names, request: Unroll) -> Result<String, AllocError> {
    let frames = request.frames;
    let form = shown_form(alloc, request.form)?;
    let simplify = simplify_word(request.simplify);
    let source = show_file(&names.model);
    let destination = show_file(&names.destination);
    let limit = request.max_var;
    format!(in alloc; "{frames} {form}{simplify}{limit} {source} {destination}")
}

fn refutation_word(lrat: bool) -> &'static str {
    if lrat { "lrat" } else { "refutation" }
}

fn shown_reaching(alloc: Global, names: &Names, request: Reach) -> Result<String, AllocError> {
    let frames = request.frames;
    let property = shown_property(alloc, request.property)?;
    let model = show_file(&names.model);
    let wrote = match request.wrote {
        SolverFile::Answer => "answer",
        SolverFile::Refutation => refutation_word(request.lrat),
    };
    let file = show_file(&names.file);
    let simplify = simplify_word(request.simplify);
    let destination = show_file(&names.destination);
    let limit = request.max_var;
    format!(in alloc; "{frames} {property} {simplify}{limit} {model} {wrote} {file} {destination}")
}

/// The refutation that is checked, or that clauses are written, as a row shows it.
fn shown_work(alloc: Global, names: &Names, request: Invariant) -> Result<String, AllocError> {
    let file = show_file(&names.refutation);
    if request.refuted {
        let wrote = refutation_word(request.lrat);
        format!(in alloc; "{wrote} {file}")
    } else {
        String::from_str(alloc, "clauses")
    }
}

fn shown_proving(alloc: Global, names: &Names, request: Invariant) -> Result<String, AllocError> {
    let property = shown_property(alloc, request.property)?;
    let model = show_file(&names.model);
    let file = show_file(&names.file);
    let work = shown_work(alloc, names, request)?;
    let simplify = simplify_word(request.simplify);
    let destination = show_file(&names.destination);
    let limit = request.max_var;
    format!(in alloc; "{property} {simplify}{limit} {model} {file} {work} {destination}")
}

fn shown_miter(alloc: Global, names: &Names, request: Miter) -> Result<String, AllocError> {
    let ascii = if request.ascii { "ascii " } else { "" };
    let by_name = if request.by_name { "by-name " } else { "" };
    let simplify = simplify_word(request.simplify);
    let first = show_file(&names.model);
    let second = show_file(&names.file);
    let destination = show_file(&names.destination);
    let limit = request.max_var;
    format!(in alloc; "{ascii}{by_name}{simplify}{limit} {first} {second} {destination}")
}

fn shown_command(alloc: Global, names: &Names, command: &Command) -> Result<String, AllocError> {
    match command {
        Command::ToAig(request) => shown_conversion(alloc, names, *request),
        Command::Sim(request) => shown_simulation(alloc, names, *request),
        Command::Unroll(request) => shown_unrolling(alloc, names, *request),
        Command::Reach(request) => shown_reaching(alloc, names, *request),
        Command::Invariant(request) => shown_proving(alloc, names, *request),
        Command::Miter(request) => shown_miter(alloc, names, *request),
        Command::Info(request) => shown_info(alloc, names, *request),
        Command::Select(request) => shown_selection(alloc, names, request),
        Command::ToDot(request) => shown_picture(alloc, names, *request),
        Command::Help(_) => String::from_str(alloc, "help"),
        Command::Version(_) => String::from_str(alloc, "version"),
    }
}

fn shown_answer(
    alloc: Global,
    answered: &Result<CommandLine, Usage>,
) -> Result<String, AllocError> {
    match answered {
        Ok(line) => {
            let sync = if line.sync { "sync " } else { "" };
            let force = if line.force { "force " } else { "" };
            let command = shown_command(alloc, &line.names, &line.command)?;
            format!(in alloc; "{sync}{force}{command}")
        }
        Err(Usage::Words(_)) => String::from_str(alloc, "words"),
        Err(usage) => format!(in alloc; "{usage}"),
    }
}

fn answered_to(alloc: Global, line: &str) -> Result<Result<CommandLine, Usage>, AllocError> {
    let words = words_of(alloc, line)?;
    Ok(command(alloc, words.as_slice()))
}

fn answer_text(alloc: Global, line: &str) -> Result<String, AllocError> {
    let answered = answered_to(alloc, line)?;
    shown_answer(alloc, &answered)
}

/// Whether each row is answered as it says; the first that is not.
fn first_wrong(alloc: Global, rows: &str) -> Result<Option<String>, Fail> {
    for row in rows.split(';') {
        let (line, wanted) = row.split_once(" => ").ok_or("a row has an answer")?;
        let answer = answer_text(alloc, line)?;
        if answer.as_str() != wanted {
            return Ok(Some(format!(in alloc; "{line} => {answer}")?));
        }
    }
    Ok(None)
}

#[test]
fn conversions(rt: HostRuntime) -> Result<(), Fail> {
    let wrong = first_wrong(rt.alloc(), CONVERSIONS)?;
    assert!(rt; wrong.is_none(), "{wrong:?}");
    Ok(())
}

#[test]
fn simulations(rt: HostRuntime) -> Result<(), Fail> {
    let wrong = first_wrong(rt.alloc(), SIMULATIONS)?;
    assert!(rt; wrong.is_none(), "{wrong:?}");
    Ok(())
}

#[test]
fn unrollings(rt: HostRuntime) -> Result<(), Fail> {
    let wrong = first_wrong(rt.alloc(), UNROLLINGS)?;
    assert!(rt; wrong.is_none(), "{wrong:?}");
    Ok(())
}

#[test]
fn reachings(rt: HostRuntime) -> Result<(), Fail> {
    let wrong = first_wrong(rt.alloc(), REACHINGS)?;
    assert!(rt; wrong.is_none(), "{wrong:?}");
    Ok(())
}

#[test]
fn provings(rt: HostRuntime) -> Result<(), Fail> {
    let wrong = first_wrong(rt.alloc(), PROVINGS)?;
    assert!(rt; wrong.is_none(), "{wrong:?}");
    Ok(())
}

#[test]
fn miters(rt: HostRuntime) -> Result<(), Fail> {
    let wrong = first_wrong(rt.alloc(), MITERS)?;
    assert!(rt; wrong.is_none(), "{wrong:?}");
    Ok(())
}

#[test]
fn infos(rt: HostRuntime) -> Result<(), Fail> {
    let wrong = first_wrong(rt.alloc(), INFOS)?;
    assert!(rt; wrong.is_none(), "{wrong:?}");
    Ok(())
}

#[test]
fn selections(rt: HostRuntime) -> Result<(), Fail> {
    let wrong = first_wrong(rt.alloc(), SELECTIONS)?;
    assert!(rt; wrong.is_none(), "{wrong:?}");
    Ok(())
}

#[test]
fn pictures(rt: HostRuntime) -> Result<(), Fail> {
    let wrong = first_wrong(rt.alloc(), PICTURES)?;
    assert!(rt; wrong.is_none(), "{wrong:?}");
    Ok(())
}

#[test]
fn refusals(rt: HostRuntime) -> Result<(), Fail> {
    let wrong = first_wrong(rt.alloc(), REFUSALS)?;
    assert!(rt; wrong.is_none(), "{wrong:?}");
    Ok(())
}

fn longest_line(text: &str) -> usize {
    let mut longest = 0;
    for line in text.split('\n') {
        longest = longest.max(line.len());
    }
    longest
}

fn longest_of_help(answered: &Result<CommandLine, Usage>) -> Option<usize> {
    match answered {
        Ok(
            CommandLine {
                command: Command::Help(text),
                names: _,
                sync: _,
                force: _,
            },
        ) => Some(longest_line(text.as_str())),
        _ => None,
    }
}

fn longest_shown(alloc: Global, line: &str) -> Result<usize, Fail> {
    let answered = answered_to(alloc, line)?;
    let longest = longest_of_help(&answered);
    drop(answered); // for the proof
    Ok(longest.ok_or("no help")?)
}

#[test]
fn help_fits_a_terminal(rt: HostRuntime) -> Result<(), Fail> {
    let lines = [
        "help",
        "help aigtoaig",
        "help aigsim",
        "help aigunroll",
        "help aigmiter",
        "help aiginfo",
        "help aigselect",
        "help aigtodot",
    ];
    for line in lines.iter() {
        let longest = longest_shown(rt.alloc(), line)?;
        assert!(rt; longest <= 80, "{line}");
    }
    Ok(())
}
