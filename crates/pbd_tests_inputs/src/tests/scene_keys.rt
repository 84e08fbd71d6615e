//! Scenes for each key of each table, a line each, written as the cases of rules.
//!
//! Of a table's keys, in the order in which they are looked at, each is left out where it may not be, has a value of another
//! kind, has values out of its range where it has one, and has a value of another kind where the next key has one too, so that
//! the earlier is told. The last line of a table has a key that there isn't, behind one with a value of another kind. Further
//! rules of `scene.rt` stand with others that they come before or behind; those of one table alone, and values at its bounds
//! that are taken, may stand with its keys.

/// Values of other kinds in place of a table, of an entry and of keys beside the tables, and numbers out of range.
pub const SCENE_KEYS: &str = "gravity=1 => 4 scene 0 gravity
damping=true => 4 scene 0 damping
thickness=[1] => 4 scene 0 thickness
friction=1.0 => 4 scene 0 friction
pins=0 => 4 scene 0 pins
passes=-1 => 5 scene 0 passes
damping=-1 => 5 scene 0 damping
thickness=1048577 => 5 scene 0 thickness
friction=-1 => 5 scene 0 friction
particle=[1] => 4 particle 0 -
cloth=1 => 4 cloth 0 -
cloth=[1] => 4 cloth 0 -
rope=1 => 4 rope 0 -
rope=[1] => 4 rope 0 -
link=1 => 4 link 0 -
particle=[{at=[0,0,0]},{at=[3,4,0]}]; link=[1] => 4 link 0 -
plane=1 => 4 plane 0 -
plane=[1] => 4 plane 0 -
sphere=1 => 4 sphere 0 -
sphere=[1] => 4 sphere 0 -
particle=[{at=[0,0,0]},{at=[3,4,0]}]; track=[1] => 4 track 0 -";

/// Keys of a particle.
pub const PARTICLE_KEYS: &str =
    "particle=[{velocity=[0,0,0],weight=1,held=false}] => 3 particle 0 at
particle=[{at=2,velocity=[0,0,0],weight=1,held=false}] => 4 particle 0 at
particle=[{at=[0,536870913,0],velocity=[0,0,0],weight=1,held=false}] => 5 particle 0 at
particle=[{at='x',velocity='x',weight=1,held=false}] => 4 particle 0 at
particle=[{at=[0,0,0],velocity=2,weight=1,held=false}] => 4 particle 0 velocity
particle=[{at=[0,0,0],velocity=[0,0,-1073741825],weight=1,held=false}] => 5 particle 0 velocity
particle=[{at=[0,0,0],velocity='x',weight='x',held=false}] => 4 particle 0 velocity
particle=[{at=[0,0,0],velocity=[0,0,0],weight=true,held=false}] => 4 particle 0 weight
particle=[{at=[0,0,0],velocity=[0,0,0],weight=0,held=false}] => 5 particle 0 weight
particle=[{at=[0,0,0],velocity=[0,0,0],weight=65536,held=false}] => 5 particle 0 weight
particle=[{at=[0,0,0],velocity=[0,0,0],weight='x',held='x'}] => 4 particle 0 weight
particle=[{at=[0,0,0],velocity=[0,0,0],weight=1,held=2}] => 4 particle 0 held
particle=[{at=[0,0,0],velocity=[0,0,0],weight=1,held='x'}] => 4 particle 0 held
particle=[{at=true,velocity=[0,0,0],weight=1,held=false,zebra=1}] => 2 particle 0 -";

/// Keys of a cloth.
pub const CLOTH_KEYS: &str =
    "cloth=[{across=[1,0,0],down=[0,0,1],rows=2,columns=2,weight=1,stretch=1,shear=1,bend=1,stretch_tear=1,shear_tear=1,bend_tear=1}] => 3 cloth 0 origin
cloth=[{origin=2,across=[1,0,0],down=[0,0,1],rows=2,columns=2,weight=1,stretch=1,shear=1,bend=1,stretch_tear=1,shear_tear=1,bend_tear=1}] => 4 cloth 0 origin
cloth=[{origin=[-536870913,0,0],across=[1,0,0],down=[0,0,1],rows=2,columns=2,weight=1,stretch=1,shear=1,bend=1,stretch_tear=1,shear_tear=1,bend_tear=1}] => 5 cloth 0 origin
cloth=[{origin='x',across='x',down=[0,0,1],rows=2,columns=2,weight=1,stretch=1,shear=1,bend=1,stretch_tear=1,shear_tear=1,bend_tear=1}] => 4 cloth 0 origin
cloth=[{origin=[0,0,0],down=[0,0,1],rows=2,columns=2,weight=1,stretch=1,shear=1,bend=1,stretch_tear=1,shear_tear=1,bend_tear=1}] => 3 cloth 0 across
cloth=[{origin=[0,0,0],across=2,down=[0,0,1],rows=2,columns=2,weight=1,stretch=1,shear=1,bend=1,stretch_tear=1,shear_tear=1,bend_tear=1}] => 4 cloth 0 across
cloth=[{origin=[0,0,0],across=[0,536870913,0],down=[0,0,1],rows=2,columns=2,weight=1,stretch=1,shear=1,bend=1,stretch_tear=1,shear_tear=1,bend_tear=1}] => 5 cloth 0 across
cloth=[{origin=[0,0,0],across='x',down='x',rows=2,columns=2,weight=1,stretch=1,shear=1,bend=1,stretch_tear=1,shear_tear=1,bend_tear=1}] => 4 cloth 0 across
cloth=[{origin=[0,0,0],across=[1,0,0],rows=2,columns=2,weight=1,stretch=1,shear=1,bend=1,stretch_tear=1,shear_tear=1,bend_tear=1}] => 3 cloth 0 down
cloth=[{origin=[0,0,0],across=[1,0,0],down=2,rows=2,columns=2,weight=1,stretch=1,shear=1,bend=1,stretch_tear=1,shear_tear=1,bend_tear=1}] => 4 cloth 0 down
cloth=[{origin=[0,0,0],across=[1,0,0],down=[0,0,-536870913],rows=2,columns=2,weight=1,stretch=1,shear=1,bend=1,stretch_tear=1,shear_tear=1,bend_tear=1}] => 5 cloth 0 down
cloth=[{origin=[0,0,0],across=[1,0,0],down='x',rows='x',columns=2,weight=1,stretch=1,shear=1,bend=1,stretch_tear=1,shear_tear=1,bend_tear=1}] => 4 cloth 0 down
cloth=[{origin=[0,0,0],across=[1,0,0],down=[0,0,1],columns=2,weight=1,stretch=1,shear=1,bend=1,stretch_tear=1,shear_tear=1,bend_tear=1}] => 3 cloth 0 rows
cloth=[{origin=[0,0,0],across=[1,0,0],down=[0,0,1],rows=true,columns=2,weight=1,stretch=1,shear=1,bend=1,stretch_tear=1,shear_tear=1,bend_tear=1}] => 4 cloth 0 rows
cloth=[{origin=[0,0,0],across=[1,0,0],down=[0,0,1],rows=0,columns=2,weight=1,stretch=1,shear=1,bend=1,stretch_tear=1,shear_tear=1,bend_tear=1}] => 5 cloth 0 rows
cloth=[{origin=[0,0,0],across=[1,0,0],down=[0,0,1],rows=257,columns=2,weight=1,stretch=1,shear=1,bend=1,stretch_tear=1,shear_tear=1,bend_tear=1}] => 5 cloth 0 rows
cloth=[{origin=[0,0,0],across=[1,0,0],down=[0,0,1],rows='x',columns='x',weight=1,stretch=1,shear=1,bend=1,stretch_tear=1,shear_tear=1,bend_tear=1}] => 4 cloth 0 rows
cloth=[{origin=[0,0,0],across=[1,0,0],down=[0,0,1],rows=2,weight=1,stretch=1,shear=1,bend=1,stretch_tear=1,shear_tear=1,bend_tear=1}] => 3 cloth 0 columns
cloth=[{origin=[0,0,0],across=[1,0,0],down=[0,0,1],rows=2,columns=true,weight=1,stretch=1,shear=1,bend=1,stretch_tear=1,shear_tear=1,bend_tear=1}] => 4 cloth 0 columns
cloth=[{origin=[0,0,0],across=[1,0,0],down=[0,0,1],rows=2,columns=0,weight=1,stretch=1,shear=1,bend=1,stretch_tear=1,shear_tear=1,bend_tear=1}] => 5 cloth 0 columns
cloth=[{origin=[0,0,0],across=[1,0,0],down=[0,0,1],rows=2,columns=257,weight=1,stretch=1,shear=1,bend=1,stretch_tear=1,shear_tear=1,bend_tear=1}] => 5 cloth 0 columns
cloth=[{origin=[0,0,0],across=[1,0,0],down=[0,0,1],rows=2,columns='x',weight='x',stretch=1,shear=1,bend=1,stretch_tear=1,shear_tear=1,bend_tear=1}] => 4 cloth 0 columns
cloth=[{origin=[0,0,0],across=[1,0,0],down=[0,0,1],rows=2,columns=2,weight=true,stretch=1,shear=1,bend=1,stretch_tear=1,shear_tear=1,bend_tear=1}] => 4 cloth 0 weight
cloth=[{origin=[0,0,0],across=[1,0,0],down=[0,0,1],rows=2,columns=2,weight=0,stretch=1,shear=1,bend=1,stretch_tear=1,shear_tear=1,bend_tear=1}] => 5 cloth 0 weight
cloth=[{origin=[0,0,0],across=[1,0,0],down=[0,0,1],rows=2,columns=2,weight=65536,stretch=1,shear=1,bend=1,stretch_tear=1,shear_tear=1,bend_tear=1}] => 5 cloth 0 weight
cloth=[{origin=[0,0,0],across=[1,0,0],down=[0,0,1],rows=2,columns=2,weight='x',stretch='x',shear=1,bend=1,stretch_tear=1,shear_tear=1,bend_tear=1}] => 4 cloth 0 weight
cloth=[{origin=[0,0,0],across=[1,0,0],down=[0,0,1],rows=2,columns=2,weight=1,stretch=true,shear=1,bend=1,stretch_tear=1,shear_tear=1,bend_tear=1}] => 4 cloth 0 stretch
cloth=[{origin=[0,0,0],across=[1,0,0],down=[0,0,1],rows=2,columns=2,weight=1,stretch=-1,shear=1,bend=1,stretch_tear=1,shear_tear=1,bend_tear=1}] => 5 cloth 0 stretch
cloth=[{origin=[0,0,0],across=[1,0,0],down=[0,0,1],rows=2,columns=2,weight=1,stretch=257,shear=1,bend=1,stretch_tear=1,shear_tear=1,bend_tear=1}] => 5 cloth 0 stretch
cloth=[{origin=[0,0,0],across=[1,0,0],down=[0,0,1],rows=2,columns=2,weight=1,stretch='x',shear='x',bend=1,stretch_tear=1,shear_tear=1,bend_tear=1}] => 4 cloth 0 stretch
cloth=[{origin=[0,0,0],across=[1,0,0],down=[0,0,1],rows=2,columns=2,weight=1,stretch=1,shear=true,bend=1,stretch_tear=1,shear_tear=1,bend_tear=1}] => 4 cloth 0 shear
cloth=[{origin=[0,0,0],across=[1,0,0],down=[0,0,1],rows=2,columns=2,weight=1,stretch=1,shear=-1,bend=1,stretch_tear=1,shear_tear=1,bend_tear=1}] => 5 cloth 0 shear
cloth=[{origin=[0,0,0],across=[1,0,0],down=[0,0,1],rows=2,columns=2,weight=1,stretch=1,shear=257,bend=1,stretch_tear=1,shear_tear=1,bend_tear=1}] => 5 cloth 0 shear
cloth=[{origin=[0,0,0],across=[1,0,0],down=[0,0,1],rows=2,columns=2,weight=1,stretch=1,shear='x',bend='x',stretch_tear=1,shear_tear=1,bend_tear=1}] => 4 cloth 0 shear
cloth=[{origin=[0,0,0],across=[1,0,0],down=[0,0,1],rows=2,columns=2,weight=1,stretch=1,shear=1,bend=true,stretch_tear=1,shear_tear=1,bend_tear=1}] => 4 cloth 0 bend
cloth=[{origin=[0,0,0],across=[1,0,0],down=[0,0,1],rows=2,columns=2,weight=1,stretch=1,shear=1,bend=-1,stretch_tear=1,shear_tear=1,bend_tear=1}] => 5 cloth 0 bend
cloth=[{origin=[0,0,0],across=[1,0,0],down=[0,0,1],rows=2,columns=2,weight=1,stretch=1,shear=1,bend=257,stretch_tear=1,shear_tear=1,bend_tear=1}] => 5 cloth 0 bend
cloth=[{origin=[0,0,0],across=[1,0,0],down=[0,0,1],rows=2,columns=2,weight=1,stretch=1,shear=1,bend='x',stretch_tear='x',shear_tear=1,bend_tear=1}] => 4 cloth 0 bend
cloth=[{origin=[0,0,0],across=[1,0,0],down=[0,0,1],rows=2,columns=2,weight=1,stretch=1,shear=1,bend=1,stretch_tear=true,shear_tear=1,bend_tear=1}] => 4 cloth 0 stretch_tear
cloth=[{origin=[0,0,0],across=[1,0,0],down=[0,0,1],rows=2,columns=2,weight=1,stretch=1,shear=1,bend=1,stretch_tear=-1,shear_tear=1,bend_tear=1}] => 5 cloth 0 stretch_tear
cloth=[{origin=[0,0,0],across=[1,0,0],down=[0,0,1],rows=2,columns=2,weight=1,stretch=1,shear=1,bend=1,stretch_tear=2147483649,shear_tear=1,bend_tear=1}] => 5 cloth 0 stretch_tear
cloth=[{origin=[0,0,0],across=[1,0,0],down=[0,0,1],rows=2,columns=2,weight=1,stretch=1,shear=1,bend=1,stretch_tear='x',shear_tear='x',bend_tear=1}] => 4 cloth 0 stretch_tear
cloth=[{origin=[0,0,0],across=[1,0,0],down=[0,0,1],rows=2,columns=2,weight=1,stretch=1,shear=1,bend=1,stretch_tear=1,shear_tear=true,bend_tear=1}] => 4 cloth 0 shear_tear
cloth=[{origin=[0,0,0],across=[1,0,0],down=[0,0,1],rows=2,columns=2,weight=1,stretch=1,shear=1,bend=1,stretch_tear=1,shear_tear=-1,bend_tear=1}] => 5 cloth 0 shear_tear
cloth=[{origin=[0,0,0],across=[1,0,0],down=[0,0,1],rows=2,columns=2,weight=1,stretch=1,shear=1,bend=1,stretch_tear=1,shear_tear=2147483649,bend_tear=1}] => 5 cloth 0 shear_tear
cloth=[{origin=[0,0,0],across=[1,0,0],down=[0,0,1],rows=2,columns=2,weight=1,stretch=1,shear=1,bend=1,stretch_tear=1,shear_tear='x',bend_tear='x'}] => 4 cloth 0 shear_tear
cloth=[{origin=[0,0,0],across=[1,0,0],down=[0,0,1],rows=2,columns=2,weight=1,stretch=1,shear=1,bend=1,stretch_tear=1,shear_tear=1,bend_tear=true}] => 4 cloth 0 bend_tear
cloth=[{origin=[0,0,0],across=[1,0,0],down=[0,0,1],rows=2,columns=2,weight=1,stretch=1,shear=1,bend=1,stretch_tear=1,shear_tear=1,bend_tear=-1}] => 5 cloth 0 bend_tear
cloth=[{origin=[0,0,0],across=[1,0,0],down=[0,0,1],rows=2,columns=2,weight=1,stretch=1,shear=1,bend=1,stretch_tear=1,shear_tear=1,bend_tear=2147483649}] => 5 cloth 0 bend_tear
cloth=[{origin=[0,0,0],across=[1,0,0],down=[0,0,1],rows=2,columns=2,weight=1,stretch=1,shear=1,bend=1,stretch_tear=1,shear_tear=1,bend_tear='x'}] => 4 cloth 0 bend_tear
cloth=[{origin=true,across=[1,0,0],down=[0,0,1],rows=2,columns=2,weight=1,stretch=1,shear=1,bend=1,stretch_tear=1,shear_tear=1,bend_tear=1,zebra=1}] => 2 cloth 0 -";

/// Keys of a rope.
pub const ROPE_KEYS: &str =
    "rope=[{spacing=[1,0,0],count=2,weight=1,stretch=1,bend=1,stretch_tear=1,bend_tear=1}] => 3 rope 0 origin
rope=[{origin=2,spacing=[1,0,0],count=2,weight=1,stretch=1,bend=1,stretch_tear=1,bend_tear=1}] => 4 rope 0 origin
rope=[{origin=[-536870913,0,0],spacing=[1,0,0],count=2,weight=1,stretch=1,bend=1,stretch_tear=1,bend_tear=1}] => 5 rope 0 origin
rope=[{origin='x',spacing='x',count=2,weight=1,stretch=1,bend=1,stretch_tear=1,bend_tear=1}] => 4 rope 0 origin
rope=[{origin=[0,0,0],count=2,weight=1,stretch=1,bend=1,stretch_tear=1,bend_tear=1}] => 3 rope 0 spacing
rope=[{origin=[0,0,0],spacing=2,count=2,weight=1,stretch=1,bend=1,stretch_tear=1,bend_tear=1}] => 4 rope 0 spacing
rope=[{origin=[0,0,0],spacing=[0,0,536870913],count=2,weight=1,stretch=1,bend=1,stretch_tear=1,bend_tear=1}] => 5 rope 0 spacing
rope=[{origin=[0,0,0],spacing='x',count='x',weight=1,stretch=1,bend=1,stretch_tear=1,bend_tear=1}] => 4 rope 0 spacing
rope=[{origin=[0,0,0],spacing=[1,0,0],weight=1,stretch=1,bend=1,stretch_tear=1,bend_tear=1}] => 3 rope 0 count
rope=[{origin=[0,0,0],spacing=[1,0,0],count=true,weight=1,stretch=1,bend=1,stretch_tear=1,bend_tear=1}] => 4 rope 0 count
rope=[{origin=[0,0,0],spacing=[1,0,0],count=0,weight=1,stretch=1,bend=1,stretch_tear=1,bend_tear=1}] => 5 rope 0 count
rope=[{origin=[0,0,0],spacing=[1,0,0],count=4097,weight=1,stretch=1,bend=1,stretch_tear=1,bend_tear=1}] => 5 rope 0 count
rope=[{origin=[0,0,0],spacing=[1,0,0],count='x',weight='x',stretch=1,bend=1,stretch_tear=1,bend_tear=1}] => 4 rope 0 count
rope=[{origin=[0,0,0],spacing=[1,0,0],count=2,weight=true,stretch=1,bend=1,stretch_tear=1,bend_tear=1}] => 4 rope 0 weight
rope=[{origin=[0,0,0],spacing=[1,0,0],count=2,weight=0,stretch=1,bend=1,stretch_tear=1,bend_tear=1}] => 5 rope 0 weight
rope=[{origin=[0,0,0],spacing=[1,0,0],count=2,weight=65536,stretch=1,bend=1,stretch_tear=1,bend_tear=1}] => 5 rope 0 weight
rope=[{origin=[0,0,0],spacing=[1,0,0],count=2,weight='x',stretch='x',bend=1,stretch_tear=1,bend_tear=1}] => 4 rope 0 weight
rope=[{origin=[0,0,0],spacing=[1,0,0],count=2,weight=1,stretch=true,bend=1,stretch_tear=1,bend_tear=1}] => 4 rope 0 stretch
rope=[{origin=[0,0,0],spacing=[1,0,0],count=2,weight=1,stretch=-1,bend=1,stretch_tear=1,bend_tear=1}] => 5 rope 0 stretch
rope=[{origin=[0,0,0],spacing=[1,0,0],count=2,weight=1,stretch=257,bend=1,stretch_tear=1,bend_tear=1}] => 5 rope 0 stretch
rope=[{origin=[0,0,0],spacing=[1,0,0],count=2,weight=1,stretch='x',bend='x',stretch_tear=1,bend_tear=1}] => 4 rope 0 stretch
rope=[{origin=[0,0,0],spacing=[1,0,0],count=2,weight=1,stretch=1,bend=true,stretch_tear=1,bend_tear=1}] => 4 rope 0 bend
rope=[{origin=[0,0,0],spacing=[1,0,0],count=2,weight=1,stretch=1,bend=-1,stretch_tear=1,bend_tear=1}] => 5 rope 0 bend
rope=[{origin=[0,0,0],spacing=[1,0,0],count=2,weight=1,stretch=1,bend=257,stretch_tear=1,bend_tear=1}] => 5 rope 0 bend
rope=[{origin=[0,0,0],spacing=[1,0,0],count=2,weight=1,stretch=1,bend='x',stretch_tear='x',bend_tear=1}] => 4 rope 0 bend
rope=[{origin=[0,0,0],spacing=[1,0,0],count=2,weight=1,stretch=1,bend=1,stretch_tear=true,bend_tear=1}] => 4 rope 0 stretch_tear
rope=[{origin=[0,0,0],spacing=[1,0,0],count=2,weight=1,stretch=1,bend=1,stretch_tear=-1,bend_tear=1}] => 5 rope 0 stretch_tear
rope=[{origin=[0,0,0],spacing=[1,0,0],count=2,weight=1,stretch=1,bend=1,stretch_tear=2147483649,bend_tear=1}] => 5 rope 0 stretch_tear
rope=[{origin=[0,0,0],spacing=[1,0,0],count=2,weight=1,stretch=1,bend=1,stretch_tear='x',bend_tear='x'}] => 4 rope 0 stretch_tear
rope=[{origin=[0,0,0],spacing=[1,0,0],count=2,weight=1,stretch=1,bend=1,stretch_tear=1,bend_tear=true}] => 4 rope 0 bend_tear
rope=[{origin=[0,0,0],spacing=[1,0,0],count=2,weight=1,stretch=1,bend=1,stretch_tear=1,bend_tear=-1}] => 5 rope 0 bend_tear
rope=[{origin=[0,0,0],spacing=[1,0,0],count=2,weight=1,stretch=1,bend=1,stretch_tear=1,bend_tear=2147483649}] => 5 rope 0 bend_tear
rope=[{origin=[0,0,0],spacing=[1,0,0],count=2,weight=1,stretch=1,bend=1,stretch_tear=1,bend_tear='x'}] => 4 rope 0 bend_tear
rope=[{origin=true,spacing=[1,0,0],count=2,weight=1,stretch=1,bend=1,stretch_tear=1,bend_tear=1,zebra=1}] => 2 rope 0 -";

/// Keys of a link.
pub const LINK_KEYS: &str =
    "particle=[{at=[0,0,0]},{at=[3,4,0]}]; link=[{b=1,rest=1,stiffness=1,tear=1}] => 3 link 0 a
particle=[{at=[0,0,0]},{at=[3,4,0]}]; link=[{a=true,b=1,rest=1,stiffness=1,tear=1}] => 4 link 0 a
particle=[{at=[0,0,0]},{at=[3,4,0]}]; link=[{a='x',b='x',rest=1,stiffness=1,tear=1}] => 4 link 0 a
particle=[{at=[0,0,0]},{at=[3,4,0]}]; link=[{a=0,rest=1,stiffness=1,tear=1}] => 3 link 0 b
particle=[{at=[0,0,0]},{at=[3,4,0]}]; link=[{a=0,b=true,rest=1,stiffness=1,tear=1}] => 4 link 0 b
particle=[{at=[0,0,0]},{at=[3,4,0]}]; link=[{a=0,b='x',rest='x',stiffness=1,tear=1}] => 4 link 0 b
particle=[{at=[0,0,0]},{at=[3,4,0]}]; link=[{a=0,b=1,rest=true,stiffness=1,tear=1}] => 4 link 0 rest
particle=[{at=[0,0,0]},{at=[3,4,0]}]; link=[{a=0,b=1,rest=-1,stiffness=1,tear=1}] => 5 link 0 rest
particle=[{at=[0,0,0]},{at=[3,4,0]}]; link=[{a=0,b=1,rest=2147483649,stiffness=1,tear=1}] => 5 link 0 rest
particle=[{at=[0,0,0]},{at=[3,4,0]}]; link=[{a=0,b=1,rest='x',stiffness='x',tear=1}] => 4 link 0 rest
particle=[{at=[0,0,0]},{at=[3,4,0]}]; link=[{a=0,b=1,rest=1,stiffness=true,tear=1}] => 4 link 0 stiffness
particle=[{at=[0,0,0]},{at=[3,4,0]}]; link=[{a=0,b=1,rest=1,stiffness=-1,tear=1}] => 5 link 0 stiffness
particle=[{at=[0,0,0]},{at=[3,4,0]}]; link=[{a=0,b=1,rest=1,stiffness=257,tear=1}] => 5 link 0 stiffness
particle=[{at=[0,0,0]},{at=[3,4,0]}]; link=[{a=0,b=1,rest=1,stiffness='x',tear='x'}] => 4 link 0 stiffness
particle=[{at=[0,0,0]},{at=[3,4,0]}]; link=[{a=0,b=1,rest=1,stiffness=1,tear=true}] => 4 link 0 tear
particle=[{at=[0,0,0]},{at=[3,4,0]}]; link=[{a=0,b=1,rest=1,stiffness=1,tear=-1}] => 5 link 0 tear
particle=[{at=[0,0,0]},{at=[3,4,0]}]; link=[{a=0,b=1,rest=1,stiffness=1,tear=2147483649}] => 5 link 0 tear
particle=[{at=[0,0,0]},{at=[3,4,0]}]; link=[{a=0,b=1,rest=1,stiffness=1,tear='x'}] => 4 link 0 tear
particle=[{at=[0,0,0]},{at=[3,4,0]}]; link=[{a=true,b=1,rest=1,stiffness=1,tear=1,zebra=1}] => 2 link 0 -";

/// Keys of a plane.
pub const PLANE_KEYS: &str = "plane=[{offset=0}] => 3 plane 0 normal
plane=[{normal=2,offset=0}] => 4 plane 0 normal
plane=[{normal=[1025,0,0],offset=0}] => 5 plane 0 normal
plane=[{normal='x',offset='x'}] => 4 plane 0 normal
plane=[{normal=[0,1,0]}] => 3 plane 0 offset
plane=[{normal=[0,1,0],offset=true}] => 4 plane 0 offset
plane=[{normal=[0,1,0],offset=1099511627777}] => 5 plane 0 offset
plane=[{normal=[0,1,0],offset='x'}] => 4 plane 0 offset
plane=[{normal=true,offset=0,zebra=1}] => 2 plane 0 -";

/// Keys of a sphere.
pub const SPHERE_KEYS: &str = "sphere=[{radius=1}] => 3 sphere 0 centre
sphere=[{centre=2,radius=1}] => 4 sphere 0 centre
sphere=[{centre=[536870913,0,0],radius=1}] => 5 sphere 0 centre
sphere=[{centre='x',radius='x'}] => 4 sphere 0 centre
sphere=[{centre=[0,0,0]}] => 3 sphere 0 radius
sphere=[{centre=[0,0,0],radius=true}] => 4 sphere 0 radius
sphere=[{centre=[0,0,0],radius=0}] => 5 sphere 0 radius
sphere=[{centre=[0,0,0],radius=536870913}] => 5 sphere 0 radius
sphere=[{centre=[0,0,0],radius='x'}] => 4 sphere 0 radius
sphere=[{centre=true,radius=1,zebra=1}] => 2 sphere 0 -";

/// Keys of a track.
pub const TRACK_KEYS: &str =
    "particle=[{at=[0,0,0]},{at=[3,4,0]}]; track=[{keys=[[0,0,0,0]]}] => 3 track 0 particle
particle=[{at=[0,0,0]},{at=[3,4,0]}]; track=[{particle=true,keys=[[0,0,0,0]]}] => 4 track 0 particle
particle=[{at=[0,0,0]},{at=[3,4,0]}]; track=[{particle='x',keys='x'}] => 4 track 0 particle
particle=[{at=[0,0,0]},{at=[3,4,0]}]; track=[{particle=0}] => 3 track 0 keys
particle=[{at=[0,0,0]},{at=[3,4,0]}]; track=[{particle=0,keys=2}] => 4 track 0 keys
particle=[{at=[0,0,0]},{at=[3,4,0]}]; track=[{particle=0,keys=[[0,536870913,0,0]]}] => 5 track 0 keys
particle=[{at=[0,0,0]},{at=[3,4,0]}]; track=[{particle=0,keys='x'}] => 4 track 0 keys
particle=[{at=[0,0,0]},{at=[3,4,0]}]; track=[{particle=true,keys=[[0,0,0,0]],zebra=1}] => 2 track 0 -";

/// The keys of the scene and of each table.
pub static KEYS: [&str; 8] = [
    SCENE_KEYS,
    PARTICLE_KEYS,
    CLOTH_KEYS,
    ROPE_KEYS,
    LINK_KEYS,
    PLANE_KEYS,
    SPHERE_KEYS,
    TRACK_KEYS,
];

/// Lists with an entry more than their greatest number: how each begins, an entry, how often it comes, and what is told.
pub static TOO_MANY: [(&str, &str, u32, &str); 8] = [
    ("particle=[", "{},", 65_537, "6 particle 0 -"),
    ("cloth=[", "{},", 65, "6 cloth 0 -"),
    ("rope=[", "{},", 65, "6 rope 0 -"),
    ("link=[", "{},", 524_289, "6 link 0 -"),
    ("plane=[", "{},", 257, "6 plane 0 -"),
    ("sphere=[", "{},", 257, "6 sphere 0 -"),
    ("track=[", "{},", 4_097, "6 track 0 -"),
    ("pins=[", "0,", 65_537, "6 scene 0 pins"),
];
