//! A page with two rules that fail, written by hand: as text and as JSON.

/// A cell on the northern edge next to a void and a listed sink, whose acc is no data.
pub static TEXT: &str = "rejected rule=2 Missing row=0 col=1

rule                cells    row column     longitude      latitude
2 Missing               2      0      1  -104.6666667    38.0000000
  acc                   2      0      1  -104.6666667    38.0000000
10 Slope                1      2      0  -105.0000000    37.3333333
hold: 1 VoidCell, 3 BadCode, 4 BelowGround, 5 OpenRaised, 9 NotLeast, 11 OutletCode, 12 FlatStep, 13 Accumulation, 14 Label, 15 SharedLabel
not tried: 6 NoSpill, 7 SpillHeight, 8 SpillRank

first fault: row 0, column 1, longitude -104.6666667, latitude 38.0000000
- outside the mosaic, * listed as a sink
ground
            -            -            -
         void            5           *4
            6            7           -8
con
            -            -            -
      no data            5            4
            6            7            8
dir
            -            -            -
      no data          E 1     outlet 0
          ? 3       NE 128         SW 8
acc
            -            -            -
      no data      no data            9
            1            2   4294967295
bas
            -            -            -
      no data            7            7
            7            7            7
rnk
            -            -            -
      no data            3            1
            4            5            6
rule 2 Missing
expected: a number at a data cell, in acc
";

/// The same as JSON, without its line end.
pub static JSON: &str =
    r#"{"answer":"rejected rule=2 Missing row=0 col=1","refusal":null,"rows":4,"cols":4,"ranks":true,"rules":[{"rule":1,"name":"VoidCell","cells":0,"first":null},{"rule":2,"name":"Missing","cells":2,"first":{"row":0,"col":1,"longitude":-104.66666666666667,"latitude":38.0}},{"rule":3,"name":"BadCode","cells":0,"first":null},{"rule":4,"name":"BelowGround","cells":0,"first":null},{"rule":5,"name":"OpenRaised","cells":0,"first":null},{"rule":9,"name":"NotLeast","cells":0,"first":null},{"rule":10,"name":"Slope","cells":1,"first":{"row":2,"col":0,"longitude":-105.0,"latitude":37.333333333333336}},{"rule":11,"name":"OutletCode","cells":0,"first":null},{"rule":12,"name":"FlatStep","cells":0,"first":null},{"rule":13,"name":"Accumulation","cells":0,"first":null},{"rule":14,"name":"Label","cells":0,"first":null},{"rule":15,"name":"SharedLabel","cells":0,"first":null}],"products":[{"product":"con","at_voids":{"cells":0,"first":null},"at_data":{"cells":0,"first":null}},{"product":"dir","at_voids":{"cells":0,"first":null},"at_data":{"cells":0,"first":null}},{"product":"acc","at_voids":{"cells":0,"first":null},"at_data":{"cells":2,"first":{"row":0,"col":1,"longitude":-104.66666666666667,"latitude":38.0}}},{"product":"bas","at_voids":{"cells":0,"first":null},"at_data":{"cells":0,"first":null}},{"product":"rnk","at_voids":{"cells":0,"first":null},"at_data":{"cells":0,"first":null}}],"patch":{"cell":{"row":0,"col":1,"longitude":-104.66666666666667,"latitude":38.0},"values":[[null,null,null],[{"ground":null,"sink":false,"con":null,"dir":null,"acc":null,"bas":null,"rnk":null},{"ground":5,"sink":false,"con":5,"dir":1,"acc":null,"bas":7,"rnk":3},{"ground":4,"sink":true,"con":4,"dir":0,"acc":9,"bas":7,"rnk":1}],[{"ground":6,"sink":false,"con":6,"dir":3,"acc":1,"bas":7,"rnk":4},{"ground":7,"sink":false,"con":7,"dir":128,"acc":2,"bas":7,"rnk":5},{"ground":-8,"sink":false,"con":8,"dir":8,"acc":4294967295,"bas":7,"rnk":6}]]},"expected":{"rule":2,"name":"Missing","product":null,"found":null,"number":null,"products":["acc"],"codes":[],"ways":[],"open":null},"run":null,"schema":1,"status":1,"rule":2,"name":"Missing","row":0,"col":1}"#;
